//! What a destination does on its jobs, without its own server: its workers' calls to the source and the answers (RFC 7862
//! sections 4.2 and 4.10.1.2).
//!
//! [`Work`] is a mount of the source, eight workers and the seats of the jobs. [`Work::work`] is a worker's turn and
//! [`Work::take`] an answer of the source, over `specs/Work.antt`; `specs/Sending.antt` has what goes out, and
//! `specs/Findings.antt` what an answer is for a job. Calls on the volume are the caller's: a turn says which is due
//! ([`Due::Land`], [`Due::Commit`]). So are xids, draws and callbacks, which count beside the server's own.
#![tactic(auto)]

mod finding;
mod sending;
mod work;

pub use finding::{Finding, finding_of, len_of};
pub use work::{AGAIN_SECONDS, Due, Taken, Work, is_due};
