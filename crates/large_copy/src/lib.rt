//! The schedule of one large copy, event by event and never held: a file of 1 to 64 mebibytes is written at the source and
//! copied to the destination.
//!
//! The contract to read first is that of [`LargeCopy::event`]: it answers an event of `large_schedule` (`specs/Large.antt`), of which
//! [`large_schedules_have_texts`] says that a text gives just the same lines.
#![tactic(auto)]

mod large;
mod laws;

pub use large::LargeCopy;
pub use laws::{
    large_copies_have_files, large_events_fit, large_schedules_are_admitted,
    large_schedules_have_texts, large_schedules_name_disks, large_schedules_stop_nobody,
};
