//! The promise, for every run of the three machines, and what each machine owes along a run.
//!
//! There is no code here. `specs/Promise.antt` says what is promised of a run: its copies are kept and stopped (`copy_model`), and the
//! client keeps its word (`wire_model`). The contract to read first is [`runs_keep_the_promise`]: each run of an accepted schedule keeps
//! it, since its machines obey the laws of a system. By module, from the lowest up:
//!
//! - [`system`]: a run as a system that the promise speaks of, whose history is the run's;
//! - [`opening`]: a run by the openings of its destination, each a run of its own;
//! - [`serving`]: both servers, also where one of them stops and is opened anew;
//! - [`dest`]: the destination along one of its openings;
//! - [`owing`]: what it owes in each opening, it owes along the whole run;
//! - [`client`]: the client along a run, its word, and what the run's lines say of it.
#![tactic(auto)]

pub mod client;
pub mod dest;
mod laws;
pub mod opening;
pub mod owing;
pub mod serving;
pub mod system;

pub use laws::runs_keep_the_promise;
