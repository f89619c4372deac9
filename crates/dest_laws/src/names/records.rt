//! A record on a connection.

ghost use Rattle.std.specs.Prelude.{◌≡◌, ℕ, List};
ghost use Rattle.std.specs.List.{AllByRecursion};
ghost use Rattle.dest_core.specs.Stepping.{DestState, DestStep, IsRecord, copier_in};
ghost use Rattle.dest_laws.specs.Names.Going.{StaysTold};
ghost use Rattle.dest_laws.specs.Names.Holding.{IsServers};
ghost use Rattle.dest_laws.specs.Names.Posts.{SessionsFit};
ghost use Rattle.nfs_base.specs.declared.seal.End.TheVariants.{Dest};

use crate::names::following::KeepsCallbacks;
use dest_core::Destination;
use dest_jobs::Carried;
use gss_mech::Mechanism;
use own_laws::own_parts_go_on;
use streams::Draws;

/// In a step that takes a record on a connection nothing new awaits its answer, and back channels fit as before.
pub fn records_tell_nothing<M: Mechanism, W: Draws>()
    ensures told { (mech : M) (conn : ℕ) (message : List ℕ) (now : ℕ) (s : DestState M) (before after : W) (t : DestStep M)
        → IsRecord (record { mic = M.mic_of; derived = M.derived }) (M.accepted mech) W.gives conn message now s before after t
        → StaysTold (copier_in s).back (copier_in t.host).back }
    ensures sealed { (mech : M) (conn : ℕ) (message : List ℕ) (now : ℕ) (s : DestState M) (before after : W) (t : DestStep M)
        → IsRecord (record { mic = M.mic_of; derived = M.derived }) (M.accepted mech) W.gives conn message now s before after t
        → s.contexts.owner ≡ Dest → t.host.contexts.owner ≡ Dest → AllByRecursion IsServers t.out.sent }
    ensures sessions { (mech : M) (conn : ℕ) (message : List ℕ) (now : ℕ) (s : DestState M) (before after : W) (t : DestStep M)
        → IsRecord (record { mic = M.mic_of; derived = M.derived }) (M.accepted mech) W.gives conn message now s before after t
        → SessionsFit s.state.sessions → SessionsFit t.host.state.sessions }
{
    own_parts_go_on::<KeepsCallbacks, Destination<M>, Carried, W>();
}
