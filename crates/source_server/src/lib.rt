//! The source on a port: its machine behind a lock, and connections of a net.
//!
//! A [`SourceMachine`] is a source with its clock and its draws, of which each call is one step of the source. [`serve_source`] opens a
//! volume and serves it; its contract is the one to read first, with `specs/Serving.antt` for how it ends and `specs/Machine.antt`
//! for what a connection gets.
#![tactic(auto)]

mod machine;
mod serving;

pub use machine::SourceMachine;
pub use serving::{Acquaintance, ServeEnd, serve_source};
