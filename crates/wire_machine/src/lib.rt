//! Three machines in one run: a client, a source and a destination, the clock, and the numbered list of all records.
//!
//! There is no code here. `specs/Ends.antt` says what an end may do in a step and where its records go, of any three
//! machines; `specs/World.antt` what there is between two steps, `specs/Steps.antt` what a small step is, `specs/Check.antt`
//! when a record is taken by mistake, `specs/Lines.antt` what is printed, and `specs/Runs.antt` how events and whole
//! schedules go. `specs/History.antt` has what a run shows of its copies, computed from what its steps did. What holds of
//! every run is in `specs/RunLaws.antt`, since no clause can speak of machines of any types: small steps that went through,
//! and then others, are small steps one after the other, and so are their lines.
#![tactic(auto)]

mod choice;
mod mistake;
mod port;

pub use choice::Choice;
pub use mistake::Mistake;
pub use port::Port;
