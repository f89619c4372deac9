//! What every server answers alike: calls under contexts, and COMPOUND in sessions (RFC 5531, RFC 2203, RFC 7861, RFC
//! 8881).
//!
//! A [`Host`] is a server: its contexts, its clients with their sessions, and its files. What a particular server adds
//! is an [`Extending`] extension. [`Host::on_record`] is one step: a record comes on a connection in a second, and an
//! [`Outbox`](outbox::Outbox) goes. Its contract is the one to read first: `specs/Steps.antt` has what a record is
//! answered by and what that leaves, over `rpc_calls`' rules of calls and `compound_server`'s of COMPOUND. All memory is
//! taken before anything changes.
#![tactic(auto)]

mod calls;
mod compounds;
mod empty;
mod extending;
mod host;
mod labels;

pub use extending::{Extending, Judgement};
pub use host::{Host, MOST_STEPS};
