//! Laws of the steps of servers.

ghost use Rattle.run_ends.specs.Ends.{run_machines};
ghost use Rattle.run_ends.specs.Mechanisms.Mechanisms.{KeepMechanisms};

use crate::mechanisms::following::OneMechanism;
use dest_core::Destination;
use dest_jobs::Carried as DestCarried;
use gss_mech::Mechanism;
use own_laws::own_parts_go_on;
use source_core::{Carried as SourceCarried, Source};
use streams::CountDraws;

/// A server goes by one mechanism as long as it isn't opened anew.
pub fn mechanisms_stay<M: Mechanism>()
    ensures { KeepMechanisms (run_machines M.mic_of M.derived M.started M.accepted M.finished) }
{
    own_parts_go_on::<OneMechanism, Source<M>, SourceCarried, CountDraws>();
    own_parts_go_on::<OneMechanism, Destination<M>, DestCarried, CountDraws>();
}
