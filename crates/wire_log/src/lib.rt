//! The numbered list of all records of a run, which stores each once and lends it, and the check of seals over it.
//!
//! Contracts see a [`Log`] as the list of records of crate `wire_machine` (`specs/World.antt` there). The contract to read
//! first is that of [`Log::post`]; [`Log::mistake`] is the check of `specs/Check.antt` there.
#![tactic(auto)]

mod check;
mod kept;
mod log;

pub use kept::{MOST_RECORDS, Sending, end_at, port_of};
pub use log::Log;
