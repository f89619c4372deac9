//! How a destination begins.

ghost use Rattle.std.specs.Prelude.{◌≡◌, ℕ, List};
ghost use Rattle.copy_privs.specs.declared.peer.Peer.{Peer};
ghost use Rattle.dest_core.specs.Core.{no_copier};
ghost use Rattle.dest_core.specs.Stepping.{DestState, copier_in};
ghost use Rattle.dest_laws.specs.View.Steps.{Shows};
ghost use Rattle.dest_laws.specs.View.View.{caller_in};
ghost use Rattle.wire_model.specs.CallerLaws.{CallerStart};
ghost use Rattle.wire_model.specs.CopyLaws.{CopiesStart};
ghost use Rattle.wire_model.specs.System.{System};

/// A destination that was just opened has no context and no mount and awaits nothing, and a system that shows it at first has no
/// copy, and holds no chunk.
pub fn opened_destinations_show_nothing<M>()
    ensures caller { (boot capacity : ℕ) (source : Peer) (principal : List ℕ) (d : DestState M) → copier_in d ≡ no_copier boot capacity source principal
        → CallerStart (caller_in d) }
    ensures copies { (boot capacity : ℕ) (source : Peer) (principal : List ℕ) (d : DestState M) (s : System) → copier_in d ≡ no_copier boot capacity source principal
        → Shows s 0 d → CopiesStart s }
{
    caller_laws::mounts_begin_lawful();
}
