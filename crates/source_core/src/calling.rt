use crate::carried::Carried;
use crate::source::Source;
use commit_laws::Calling;
use gss_mech::Mechanism;

impl<M: Mechanism> Calling<Carried> for Source<M> {
    ghost use Rattle.source_core.specs.CallLaws.{serves_by_calls};

    ghost by_calls = { serves_by_calls };
}
