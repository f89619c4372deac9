use dest_core::Destination;
use dest_jobs::Carried;
use gss_mech::Mechanism;
use own_laws::Following;

/// The relation of a destination to what it was, in whose own rules copies are taken and jobs end, and no job gets an entry.
pub struct TakesAlong;

impl<M: Mechanism> Following<Destination<M>, Carried> for TakesAlong {
    ghost use Rattle.dest_laws.specs.Own.GoingLaws.{follows};
    ghost use Rattle.dest_laws.specs.Own.Going as going;

    ghost goes = { going.TakesAlong };

    ghost follows = { follows };
}
