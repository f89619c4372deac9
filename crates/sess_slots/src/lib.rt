//! Sessions of an NFSv4.1 server: clients, their sessions, and the slots that make each call happen once.
//!
//! A [`Sessions`] answers EXCHANGE_ID, CREATE_SESSION, DESTROY_SESSION, RECLAIM_COMPLETE and DESTROY_CLIENTID,
//! and decides what a SEQUENCE means. Contracts see two plain lists, of clients and of sessions
//! (`specs/Table.antt`). The contract to read first is [`Sessions::begin`]'s, with `specs/Slots.antt`; what
//! follows for whole runs is [`laws::a_number_runs_once`].
//! RFC 8881 sections 2.4, 2.10 and 18.35 to 18.37, 18.46, 18.50 and 18.51.
#![tactic(auto)]

mod answers;
mod client;
pub mod laws;
mod session;
mod sessions;
mod slot;

pub use answers::{Back, Begin, ClientIds, Created, Exchanged, Place};
pub use sessions::Sessions;
pub use slot::{Kept, MOST_REPLY, Slot};
