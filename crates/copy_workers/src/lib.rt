//! Up to eight workers that share what they work at under one lock: each asks for work, sends what it is given and takes the
//! answer outside the lock, and lands the answer inside it.
//!
//! A [`Desk`] is what lies under the lock, and a [`Link`] a worker's way to the source. [`run_workers`] runs a thread for each
//! link until its turns are used, its link is down or the desk is closed; its [`WorkerReport`] tells of each worker why it ended,
//! and ties what landed to the desk's book. The contracts to read first are those of [`Desk::turn`] and [`run_workers`], with
//! `specs/Workers.antt`. A [`Gate`] is where workers rest. Nothing is said of which worker comes first, or that a rest ends; how long
//! one may be, by how a worker's turns went, stands in `specs/Pace.antt`, and which records answer its calls in `specs/InFlight.antt`.
#![tactic(auto)]

mod counting;
mod crew;
mod desk;
mod gate;
mod holding;
mod in_flight;
mod link;
mod pace;
mod report;
mod sending;
mod turn;
mod worker;

pub use counting::{given_to, landed_in};
pub use crew::run_workers;
pub use desk::Desk;
pub use gate::{Gate, Resting};
pub use link::Link;
pub use pace::Rest;
pub use report::{WorkerEnd, WorkerReport};
