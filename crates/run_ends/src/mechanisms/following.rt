use dest_core::Destination;
use dest_jobs::Carried as DestCarried;
use gss_mech::Mechanism;
use own_laws::Following;
use source_core::{Carried as SourceCarried, Source};

/// The relation of a server to what it was that has the same mechanism.
pub struct OneMechanism;

impl<M: Mechanism> Following<Source<M>, SourceCarried> for OneMechanism {
    ghost use Rattle.run_ends.specs.Mechanisms.Mechanisms.{SameSource};
    ghost use Rattle.run_ends.specs.Mechanisms.SourceRules.{follows};

    ghost goes = { SameSource };

    ghost follows = { follows M.mic_of };
}

impl<M: Mechanism> Following<Destination<M>, DestCarried> for OneMechanism {
    ghost use Rattle.run_ends.specs.Mechanisms.DestRules.{follows};
    ghost use Rattle.run_ends.specs.Mechanisms.Mechanisms.{SameDest};

    ghost goes = { SameDest };

    ghost follows = { follows };
}
