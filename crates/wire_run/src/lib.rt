//! The runner: carries out a schedule with a client, a source and a destination over two disks, and prints the transcript.
//!
//! The type is [`System`], and the contract to read first that of [`System::step`]: an event is the small steps of crate
//! `wire_machine`, each of which is a step of one machine, or of all three where the clock moves on. One copy goes through
//! [`System::step`], a command of the client; the deliveries of `small.rt`; and the work of the destination.
//!
//! The run of a large copy, whose events are made when they are due and whose lines are counted, is that of [`large_runs`].
#![tactic(auto)]

mod acting;
mod bytes;
mod client_turn;
mod cutting;
mod ends;
mod flowing;
mod fresh;
pub mod large_runs;
mod laws;
mod lines;
mod run;
mod settling;
mod small;
mod stage;
mod stop_laws;
mod system;

pub use ends::Disks;
pub use fresh::Unmade;
pub use laws::{events_follow_events, events_make_runs};
pub use run::Ran;
pub use system::{Stepped, System};
