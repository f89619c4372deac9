//! The desk that workers share with a connection: one destination's machine with its clock, its draws and the books of what
//! workers did, all under one lock.
//!
//! A [`Core`] is the machine, as a desk calls it, and a [`CoreDesk`] the desk. Each call of a desk is one step of the machine at
//! most, and books what it landed. The contracts to read first are those of [`CoreDesk::new`] and [`CoreDesk::on_record`], with
//! `specs/Core.antt`; what a worker's call does is said by crate `copy_workers`, too.
#![tactic(auto)]

mod desk;
mod destination;
mod kept;
mod machine;

pub use copy_workers::Desk;
pub use desk::{Closing, CoreDesk};
pub use machine::{Core, MOST_CALLS};
