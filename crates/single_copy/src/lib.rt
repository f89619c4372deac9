//! One copy by a client over the links to both servers (RFC 7862 section 4).
//!
//! [`copy_once`] begins the copy, takes records from both links, gives them to the client and puts what the client sends, until
//! the copy has its last report, and then lets the client take its leave. Each record is one turn: `specs/Turns.antt` says what
//! a turn does, `specs/Phases.antt` what is due when, and `specs/Answers.antt` what is answered at the end. The contract to read
//! first is that of [`copy_once`], with `specs/Copying.antt`; `specs/Links.antt` has what a link brings and takes.
#![tactic(auto)]

mod acts;
mod answers;
mod copying;
mod links;
mod phases;
mod sending;
mod turns;

pub use answers::{Copied, LastReport};
pub use copying::copy_once;
pub use links::MOST_RECORDS;
pub use phases::{COPY_NUMBER, Due, Phase};
