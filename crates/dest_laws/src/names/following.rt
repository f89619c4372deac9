use dest_core::Destination;
use dest_jobs::Carried;
use gss_mech::Mechanism;
use own_laws::Following;

/// The relation of a destination to what it was, in whose own rules nothing new awaits its answer.
pub struct KeepsCallbacks;

impl<M: Mechanism> Following<Destination<M>, Carried> for KeepsCallbacks {
    ghost use Rattle.dest_laws.specs.Names.GoingLaws.{follows};
    ghost use Rattle.dest_laws.specs.Names.Going as going;

    ghost goes = { going.KeepsCallbacks };

    ghost follows = { follows };
}
