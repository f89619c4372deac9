//! Opens of an NFSv4.1 server, and the tests of a stateid in their order (RFC 8881 sections 8.2, 18.2 and 18.16).
//!
//! An [`Opens`] gives out stateids, and says of a stateid whether it allows an operation on a file. Contracts
//! see the opens as a plain list (`specs/Opens.antt`). The contract to read first is [`Opens::check`]'s, and then the laws in [`laws`].
#![tactic(auto)]

mod access;
pub mod laws;
mod open_file;
mod opens;

pub use access::Access;
pub use opens::{Full, Opens};
