use dest_core::Destination;
use dest_jobs::Carried;
use gss_mech::Mechanism;
use own_laws::Following;

/// The relation of a destination to what it was, by whose own rules its workers stay as they are, and what its mount awaits.
pub struct KeepsWork;

impl<M: Mechanism> Following<Destination<M>, Carried> for KeepsWork {
    ghost use Rattle.dest_laws.specs.Landings.Seating.{follows};
    ghost use Rattle.dest_laws.specs.Landings.Seating as seating;

    ghost goes = { seating.KeepsWork };

    ghost follows = { follows };
}
