ghost use Rattle.std.specs.Prelude.{◌≡◌, ◌≤◌, [], ℕ};
ghost use Rattle.sess_slots.specs.Lives.{no_clients};
ghost use Rattle.session_server.specs.Host.{HostState, rules_of};
ghost use Rattle.session_server.specs.Steps.{ticked};
ghost use Rattle.server_laws.specs.ContextLaws.{InEachStep};
ghost use Rattle.server_laws.specs.SlotDuties.{KeepsSessions, KeepsSlots};
ghost use Rattle.server_laws.specs.Slots.{HasSlots};

use session_server::Extending;
use streams::Draws;

/// In every step of every server a call of a slot is executed or answered by what is kept for its slot, number and root
/// context; what is kept was kept, or is the reply to a call that was executed; what runs has a number above the last one of
/// its slot, and no slot's last number falls (RFC 8881 section 2.10.6.1). And a step leaves a server's sessions as they should be.
pub fn slots_are_kept<X: Extending<C>, C, W: Draws>()
    ensures slots { (mech : X.Mech) → InEachStep (rules_of X.gated X.serves X.leaves X.lapses X.judges X.tells X.silent) (record { mic = X.Mech.mic_of; derived = X.Mech.derived }) (X.Mech.accepted mech) W.gives (KeepsSlots (record { mic = X.Mech.mic_of; derived = X.Mech.derived })) }
    ensures sessions { (mech : X.Mech) → InEachStep (rules_of X.gated X.serves X.leaves X.lapses X.judges X.tells X.silent) (record { mic = X.Mech.mic_of; derived = X.Mech.derived }) (X.Mech.accepted mech) W.gives KeepsSessions }
{}

/// A server without clients has its sessions as they should be, and a second that comes by itself leaves them so.
pub fn slots_rest<X: Extending<C>, C>()
    ensures start { (s : HostState X C) → s.state.sessions ≡ no_clients s.state.sessions.boot → HasSlots s }
    ensures tick { (now : ℕ) (s : HostState X C) → HasSlots s
        → HasSlots (ticked (rules_of X.gated X.serves X.leaves X.lapses X.judges X.tells X.silent) now s) }
{}
