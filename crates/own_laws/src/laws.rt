ghost use Rattle.std.specs.Prelude.{ℕ};
ghost use Rattle.own_laws.specs.Following.{GivesFew, GivesOne, InSeconds, InTurns};
ghost use Rattle.own_laws.specs.Quiet.{QuietMakeNoCall};
ghost use Rattle.session_server.specs.Host.{rules_of};

use crate::following::Following;
use session_server::Extending;
use streams::Draws;

/// In every step of every server, and in a second that comes by itself, what the server adds goes along a relation along which
/// its own rules go.
pub fn own_parts_go_on<R: Following<X, C>, X: Extending<C>, C, W: Draws>()
    ensures step { (mech : X.Mech) → InTurns R.goes (rules_of X.gated X.serves X.leaves X.lapses X.judges X.tells X.silent) (record { mic = X.Mech.mic_of; derived = X.Mech.derived }) (X.Mech.accepted mech) W.gives }
    ensures second { InSeconds R.goes (rules_of X.gated X.serves X.leaves X.lapses X.judges X.tells X.silent) }
{}

/// What each of its own operations gives out one of at most, and none of its other rules gives, a server gives out no more of in a
/// step than a COMPOUND may have operations.
pub fn own_parts_give_few<X: Extending<C>, C, W: Draws>()
    ensures { (given : X → ℕ) (mech : X.Mech) → GivesOne given (rules_of X.gated X.serves X.leaves X.lapses X.judges X.tells X.silent)
        → InTurns (GivesFew given) (rules_of X.gated X.serves X.leaves X.lapses X.judges X.tells X.silent) (record { mic = X.Mech.mic_of; derived = X.Mech.derived }) (X.Mech.accepted mech) W.gives }
{}

/// An operation on files that is counted as no call on the volume (`nfs_compound`'s `file_calls`) makes none, whatever a server adds.
pub fn quiet_operations_make_no_call<X: Extending<C>, C>()
    ensures { QuietMakeNoCall (rules_of X.gated X.serves X.leaves X.lapses X.judges X.tells X.silent).service }
{}
