//! What a destination has of its own, and what COPY, OFFLOAD_STATUS, OFFLOAD_CANCEL and the end of clients do to it (RFC 7862
//! sections 4.10.1, 15.2, 15.8 and 15.9).
//!
//! [`Copies`] are the jobs of a destination, as a [`Book`], with the source from which it copies and what is to be told of a
//! step.
//! [`Copies::copy`] is COPY once it is known between which files: its table of refusals, and the job that is taken.
//! Its contract is the one to read first, over `specs/Copying.antt`. What comes about in a job on its way is in
//! `specs/Progress.antt`. No call here but [`Copies::size`] wants memory, and none knows a compound, a page or a session; a server
//! around it does.
#![tactic(auto)]

mod carried;
mod copies;
mod copying;
mod ending;
mod offloads;
mod progress;

pub use carried::Carried;
pub use copies::Copies;
pub use copying::{CopyRoom, Ends};
pub use ending::Whose;
pub use job_book::Book;
pub use progress::stop_status;
