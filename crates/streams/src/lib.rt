//! The ways in and out: sources and sinks of bytes, clocks and draws.
//!
//! Each object counts its faults, and answers one only where that count rose in the call. It may tell
//! its contents: those in memory, [`MemSource`] and [`MemSink`], do, and an adapter, [`Reading`] or
//! [`Writing`], does where its reader or writer does. [`read_whole`] takes all of a source, and
//! [`put_all`] puts all of a piece. The contracts to read first are those of [`Source::take`] and
//! [`Sink::put`], with `specs/Source.antt` and `specs/Sink.antt`.
#![tactic(auto)]

mod adapters;
mod clock;
mod draws;
mod memory;
mod sink;
mod source;
mod stream;
mod whole;

pub use adapters::{Reading, Writing};
pub use clock::Clock;
pub use draws::{CountDraws, Drawn, Draws, MemDraws};
pub use memory::{MemSink, MemSource};
pub use sink::{Put, Sink};
pub use source::{Source, Take};
pub use stream::Stream;
pub use whole::{Whole, WriteFault, put_all, puts_join, read_whole, take_some};
