ghost use Rattle.session_server.specs.Host.{rules_of};
ghost use Rattle.commit_laws.specs.Stores.{ByCallsInTurns};

use crate::calling::Calling;
use streams::Draws;

/// In every step in which a record is taken the volume changes by calls alone, each of which is noted.
pub fn steps_change_by_calls<X: Calling<C>, C, W: Draws>()
    ensures { (mech : X.Mech) → ByCallsInTurns (rules_of X.gated X.serves X.leaves X.lapses X.judges X.tells X.silent) (record { mic = X.Mech.mic_of; derived = X.Mech.derived }) (X.Mech.accepted mech) W.gives }
{}
