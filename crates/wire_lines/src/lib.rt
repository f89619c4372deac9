//! The transcript of a run over the wire, line by line.
//!
//! A [`Line`] is one line; the contract to read first is that of [`Line::push_to`], which writes it as `specs/LineText.antt`
//! has it. The format is our own.
#![tactic(auto)]

mod label;
mod letters;
mod line;
mod note;

pub use letters::Speaker;
pub use line::Line;
