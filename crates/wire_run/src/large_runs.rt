//! The run of a large copy, event by event, of which neither the schedule nor the transcript is ever held.
//!
//! The contract to read first is that of [`run_large`]: it says of the run what [`crate::System::run`] says of that of a
//! schedule, and of the lines of its transcript what they come to (`wire_tally`). [`files_are_alike`] says then whether its two files
//! have the same bytes.

mod alike;
mod large;

pub use alike::files_are_alike;
pub use large::{Large, run_large};
