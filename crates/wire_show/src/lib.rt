//! What a stream of records holds, line by line: each record, the head of its message and what the call asks.
//!
//! `specs/Shown.antt` says which lines are due for a list of bytes, and `specs/Text.antt` how each line reads.
//! The contract to read first is that of [`do_show`], which puts them: what it puts are those lines, or a
//! front of them where a read, a put or memory fails. Records are those of RFC 5531 section 11, heads those
//! of section 9. The lines are our own format.
#![tactic(auto)]

mod body;
mod line;
mod message;
mod piece;
mod show;

pub use line::ShownLine;
pub use message::record_lines;
pub use show::{Shown, do_show};
