//! A server of connections: one machine behind a lock, and up to sixteen connections at once, each served by a thread.
//!
//! A [`Machine`] is what answers records, and a [`Counted`] one lies under the lock with a book of the calls that were made of it.
//! [`serve`] accepts connections of a net, serves the records of each (`rpc_msg::pump_records`) and hangs each up once it has
//! ended. The contract to read first is that of [`serve`], with `specs/Answering.antt` for what a connection gets and
//! `specs/Hanging.antt` for why it was hung up. Nothing is said of the order in which the lock is taken.
#![tactic(auto)]

mod acceptor;
mod bell;
mod counted;
mod laws;
mod link;
mod machine;
mod running;
mod shared;
mod site;
mod tally;

pub use acceptor::serve;
pub use counted::{Counted, Origin};
pub use laws::links_are_hung_up_for_a_cause;
pub use machine::{MOST_CALLS, Machine};
pub use shared::Shared;
pub use tally::{ALL_RECORDS, EACH_RECORDS, MOST_LINKS, Stop, Tally};
