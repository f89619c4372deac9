//! The log of one copy job: what came about in it, which of its chunks have landed and which are claimed
//! (RFC 7862 section 15.2).
//!
//! A [`JobLog`] keeps its entries once, and two rows of bits with counters, so that no call takes longer in a
//! longer file. Contracts see the entries and, for each chunk, whether it is claimed. The contract to read
//! first is [`JobLog::landed`]'s, and then those of [`JobLog::claim`] and [`JobLog::landing`].
#![tactic(auto)]

mod bits;
mod chunk;
mod log;

pub use bits::Bits;
pub use chunk::{Chunk, Landing};
pub use log::JobLog;
