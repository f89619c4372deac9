//! The copy jobs of a destination server (RFC 7862 sections 4.2 and 15.2): at most sixteen that aren't retired,
//! whose ranges on one file have no common byte while they run.
//!
//! [`Jobs`] keeps them in a slab and answers by the number that each job got. Contracts see the jobs by number, each
//! with its plan and its log, and not the slab. The contract to read first is [`Jobs::accept`]'s, and then those of
//! [`Jobs::made`] and [`Jobs::landed`], which say what holds of every table.
#![tactic(auto)]

mod calls;
mod fits;
mod job;
mod jobs;
mod key_row;
mod keys;
mod progress;
mod ranges;

pub use job::{JobId, JobStatus, Plan, Refused};
pub use job_log::{Chunk, JobLog, Landing};
pub use jobs::Jobs;
