ghost use Rattle.session_server.specs.Host.{rules_of};
ghost use Rattle.server_laws.specs.ContextLaws.{InEachStep};
ghost use Rattle.tell_laws.specs.ReadBack.{ReadsBack};
ghost use Rattle.tell_laws.specs.Telling.{RefusesByFailures, TellsOfVolume};

use session_server::Extending;
use streams::Draws;

/// What a server tells in a step is right of its volume before the step (`wire_model`'s `TellsRight`): the data of a READ are bytes
/// of a volume that isn't broken, and a size and a change attribute are those of the file. A server's extension may refuse any
/// operation, by a failure.
pub fn steps_tell_of_the_volume<X: Extending<C>, C, W: Draws>()
    ensures { (mech : X.Mech) → RefusesByFailures (rules_of X.gated X.serves X.leaves X.lapses X.judges X.tells X.silent) → InEachStep (rules_of X.gated X.serves X.leaves X.lapses X.judges X.tells X.silent) (record { mic = X.Mech.mic_of; derived = X.Mech.derived }) (X.Mech.accepted mech) W.gives (TellsOfVolume (record { mic = X.Mech.mic_of; derived = X.Mech.derived })) }
{
    server_laws::steps_carry_compounds_out::<X, C, W>();
    copy_model::written_bytes();
    nfs_compound::compounds_are_spelled();
    results_are_read_back();
}

/// The results of a reply are read back from its bytes, in their order, up to the first that can't be spelled.
pub fn results_are_read_back()
    ensures { ReadsBack }
{}
