//! What the workers of a destination do for its jobs, and in which order (RFC 7862 sections 4.2 and 4.10.1.2).
//!
//! A worker awaits an answer of the source for a job, holds the bytes of a chunk that is to land, or is idle: [`Workers`]
//! has what each is at. [`Seats`] gives each job one of sixteen seats, by which it has its context at the source and its
//! slot in its client's back channel. [`find_task`] is what an idle worker does next: the jobs are gone through by number,
//! and the first task found is done. Its contract is the one to read first, over `specs/Tasks.antt`. The time that it takes
//! doesn't grow with a job's chunks. Nothing here knows a record, a context or a volume, and nothing wants memory.
#![tactic(auto)]

mod laws;
mod post;
mod seats;
mod tasks;
mod workers;

pub use job_book::{Book, Chunk};
pub use laws::{chunks_are_next, claims_go_back, commits_are_whole, sized_jobs_complete};
pub use post::{Errand, Post};
pub use seats::{SEATS, Seat, Seats};
pub use tasks::{Outlook, Sight, Source, Task, find_task};
pub use workers::{WORKERS, Workers};
