ghost use Rattle.server_laws.specs.ContextLaws.{InEachStep};
ghost use Rattle.source_core.specs.Core.{source_rules};
ghost use Rattle.tell_laws.specs.Telling.{TellsOfVolume};
ghost use Rattle.tell_laws.specs.Volumes.{CallsNone, ChangesLawfully, KeepsFitting, KeepsOpening};

use gss_mech::Mechanism;
use source_core::{Carried, Source};
use streams::Draws;

/// By its own operations a source makes no call on its volume.
pub fn own_operations_call_none<M: Mechanism>()
    ensures { CallsNone (source_rules {M = M} M.mic_of) }
{}

/// In every step of a source its volume changes by one effect that is allowed at most, where it takes only what calls a volume once
/// at most, and stays fitting; and what it tells is right of the volume before the step.
pub fn source_steps_are_right<M: Mechanism, W: Draws>()
    ensures laws { (mech : M) → InEachStep (source_rules {M = M} M.mic_of) (record { mic = M.mic_of; derived = M.derived }) (M.accepted mech) W.gives (ChangesLawfully (record { mic = M.mic_of; derived = M.derived })) }
    ensures fitting { (mech : M) → InEachStep (source_rules {M = M} M.mic_of) (record { mic = M.mic_of; derived = M.derived }) (M.accepted mech) W.gives KeepsFitting }
    ensures opening { (mech : M) → InEachStep (source_rules {M = M} M.mic_of) (record { mic = M.mic_of; derived = M.derived }) (M.accepted mech) W.gives KeepsOpening }
    ensures tells { (mech : M) → InEachStep (source_rules {M = M} M.mic_of) (record { mic = M.mic_of; derived = M.derived }) (M.accepted mech) W.gives (TellsOfVolume (record { mic = M.mic_of; derived = M.derived })) }
{
    tell_laws::servers_change_volumes_lawfully::<Source<M>, Carried, W>();
    tell_laws::steps_tell_of_the_volume::<Source<M>, Carried, W>();
}
