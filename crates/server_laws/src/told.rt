ghost use Rattle.session_server.specs.Host.{rules_of};
ghost use Rattle.server_laws.specs.ContextLaws.{InEachStep};
ghost use Rattle.server_laws.specs.Told.{HasKind, TellsGiven};

use session_server::Extending;
use streams::Draws;

/// Every step of every server carries a COMPOUND out, or makes no call on its volume and tells no results. The results that a
/// step tells are those that its COMPOUND gives.
pub fn steps_carry_compounds_out<X: Extending<C>, C, W: Draws>()
    ensures kind { (mech : X.Mech) → InEachStep (rules_of X.gated X.serves X.leaves X.lapses X.judges X.tells X.silent) (record { mic = X.Mech.mic_of; derived = X.Mech.derived }) (X.Mech.accepted mech) W.gives (HasKind (rules_of X.gated X.serves X.leaves X.lapses X.judges X.tells X.silent) (record { mic = X.Mech.mic_of; derived = X.Mech.derived })) }
    ensures told { (mech : X.Mech) → InEachStep (rules_of X.gated X.serves X.leaves X.lapses X.judges X.tells X.silent) (record { mic = X.Mech.mic_of; derived = X.Mech.derived }) (X.Mech.accepted mech) W.gives (TellsGiven (rules_of X.gated X.serves X.leaves X.lapses X.judges X.tells X.silent) (record { mic = X.Mech.mic_of; derived = X.Mech.derived })) }
{}
