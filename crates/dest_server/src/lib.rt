//! The destination on a port, with its workers: its machine behind a lock, one connection of a net after the other, and beside them
//! workers that fetch from the source's port.
//!
//! A [`CountedDesk`] is the desk of a destination's machine (crate `core_desk`) with the book of connections' calls. [`serve_dest`]
//! opens a volume and serves it; its contract is the one to read first, with `specs/Serving.antt` for how it ends and
//! `specs/Desk.antt` for what a connection gets.
#![tactic(auto)]

mod crew;
mod desk;
mod serving;

pub use desk::CountedDesk;
pub use serving::{DestService, Partner, serve_dest};
pub use source_server::ServeEnd;
