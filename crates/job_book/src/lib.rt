//! The jobs of a destination by name, and all bytes that they landed (RFC 7862 sections 4.2 and 15.2).
//!
//! A [`Book`] is a table of jobs, of crate `job_table`, with the bytes that jobs landed which aren't there any more. It takes
//! a copy as a job without memory, and says what became of it as an [`Acceptance`]; each of its calls is one equation with
//! a definition of `specs/Book.antt`. The contract to read first is [`Book::landed`]'s, which says what holds of every
//! book, and then [`Book::accept`]'s. What comes about in a job on its way, its next chunk among it, is in
//! `specs/Working.antt`.
#![tactic(auto)]

mod acceptance;
mod book;
mod working;

pub use acceptance::Acceptance;
pub use book::Book;
pub use job_table::{Chunk, JobLog, JobStatus, Landing, Plan};
