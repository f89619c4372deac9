//! A server of one connection at a time, over a machine that workers share: its records may go to a connection at any moment.
//!
//! A [`Host`] is what answers records, and lies under a lock. [`serve_beside`] runs the workers beside the connections, which it serves
//! one after the other ([`serve_each`], by `rpc_msg::pump_records`) and hangs up. [`dial_all`] and [`hang_all`] dial the workers' links
//! and hang them up. The contract to read first is that of [`serve_beside`], with `specs/Crew.antt`, `specs/Keeping.antt` for the
//! connections and `specs/Serving.antt` for what one of them gets. What else is put on a connection isn't told, nor in which order the
//! lock is taken.
#![tactic(auto)]

mod connection;
mod connections;
mod crew;
mod dialing;
mod handler;
mod host;
mod laws;
mod replies;
mod server;
mod worker_link;

pub use connections::serve_each;
pub use crew::Worked;
pub use dialing::{Crew, DialFault, dial_all, hang_all};
pub use host::Host;
pub use laws::links_are_hung_up_for_a_cause;
pub use server::{Shares, serve_beside};
pub use worker_link::WorkerLink;
