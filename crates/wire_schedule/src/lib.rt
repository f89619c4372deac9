//! The schedule of a run over the wire: what the client, the servers and the network do, event by event.
//!
//! A [`Schedule`] is a list of [`Entry`]s, one for each line that isn't passed over; a line gives one [`Event`], or a few
//! events many times over. The contract to read first is that of [`Schedule::parse`]: it answers `schedule_of` of
//! `specs/ScheduleText.antt`, and [`schedule_lines`] says what that is in the format's own words
//! (`specs/ScheduleOf.antt`). `specs/Grammar.antt` has each kind of line, `specs/Admission.antt` the limits and the order
//! of events, `specs/Expansion.antt` the events of a line. The format is our own.
#![tactic(auto)]

mod context;
mod directive;
mod event;
mod grammar;
mod laws;
mod numerals;
mod schedule;
mod words;

pub use context::Context;
pub use directive::{Directive, Entry};
pub use event::Event;
pub use laws::{
    byte_words, directive_lines, first_bad_line, line_events, number_words, schedule_lines,
    schedule_texts,
};
pub use numerals::{number, number_u32};
pub use schedule::{BadLine, Schedule};
