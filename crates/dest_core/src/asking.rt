//! What a destination says to what an operation asks.

use crate::destination::Destination;
use dest_jobs::Carried;
use file_server::{Ask, Caller, Extension, Gate};

impl<M> Extension<Option<Carried>> for Destination<M> {
    ghost use Rattle.dest_core.specs.Asking.{gated};

    ghost gated = { gated };

    fn gate(&mut self, caller: &Caller, carry: &Option<Carried>, ask: &Ask) -> Gate {
        Gate::Usual
    }
}
