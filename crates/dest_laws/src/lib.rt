//! What the steps of a destination do to its jobs (RFC 7862 sections 4.2 and 15.2), and what it owes to its wires and to the promise.
//!
//! There is no code here. [`steps_are_deeds`] says that each step changes the jobs by what is done to a book, one thing after
//! another, as `dest_tasks` has it: so its law on how a sized job completes is one on every such step, and so is
//! [`chunks_left_never_rise`]. [`steps_give_one_entry`] says that these give jobs one entry at most. [`chunks_land`] says that a
//! chunk which the source brought lands, also later, and that a whole job is committed; [`found_tasks_go_out`] that a worker
//! isn't idle where there is a task. By module, nearly from the lowest up:
//!
//! - [`histories`]: what such deeds are to a history of copies;
//! - [`own`]: each whole step of a destination goes by deeds;
//! - [`sound`]: its table of jobs stays sound;
//! - [`view`]: how a destination is seen in a system;
//! - [`calls`]: what it owes as a caller of its source;
//! - [`landings`]: what lands and what is held is due;
//! - [`names`]: what it tells of its copies, by name and in reports;
//! - [`copies`]: the laws of its copies, in a step and at every moment.
#![tactic(auto)]

pub mod calls;
pub mod copies;
pub mod histories;
pub mod landings;
mod laws;
pub mod names;
pub mod own;
pub mod sound;
pub mod view;

pub use laws::{
    chunks_land, chunks_left_never_rise, found_tasks_go_out, steps_are_deeds, steps_give_one_entry,
};
