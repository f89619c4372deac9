use dest_core::Destination;
use dest_jobs::Carried;
use gss_mech::Mechanism;
use own_laws::Following;

/// The relation of a destination to what it was, in whose own rules accepted jobs get seats, and nothing else is done at the source.
pub struct SeatsAlong;

impl<M: Mechanism> Following<Destination<M>, Carried> for SeatsAlong {
    ghost use Rattle.dest_laws.specs.Calls.SeatingLaws.{follows};
    ghost use Rattle.dest_laws.specs.Calls.Seating as seating;

    ghost goes = { seating.SeatsAlong };

    ghost follows = { follows };
}
