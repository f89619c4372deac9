//! What a transcript says of the copies in it, counted, so that a long run need not keep its lines.
//!
//! [`Tally::add`] counts the lines of a text, as `specs/Tally.antt` reads them, and [`lines_count_by_their_notes`] says what it
//! counts of the lines that a run writes. A transcript may come in pieces of whole lines ([`whole_texts_add_up`],
//! [`lines_are_whole`]).
#![tactic(auto)]

mod laws;
mod tally;

pub use laws::{
    end_lines_count_nothing, lines_are_whole, lines_count_by_their_notes, no_text_counts_nothing,
    tallies_grow_by_bytes, whole_texts_add_up,
};
pub use tally::Tally;
