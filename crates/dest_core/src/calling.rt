use crate::destination::Destination;
use commit_laws::Calling;
use dest_jobs::Carried;
use gss_mech::Mechanism;

impl<M: Mechanism> Calling<Carried> for Destination<M> {
    ghost use Rattle.dest_core.specs.CallLaws.{serves_by_calls};

    ghost by_calls = { serves_by_calls };
}
