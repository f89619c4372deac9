//! Nets of links: where connections come from and go to.
//!
//! A [`Net`] accepts and dials links, each a source and a sink with two halves ([`Halves`]), and hangs them up. A net may tell
//! of its links: a [`MemNet`], of connections in memory, keeps of each that was hung up what it brought and what it took. A
//! [`TcpNet`] is the system's, on 127.0.0.1 alone, and tells nothing but its count of faults. The contracts to read first are
//! those of [`Net::accept`] and [`Net::hang_up`], with `specs/Links.antt`.
#![tactic(auto)]

mod hung_link;
mod mem_link;
mod mem_net;
mod net;
mod tcp;

pub use hung_link::HungLink;
pub use mem_link::{Connection, MemLink};
pub use mem_net::{Dial, MemNet};
pub use net::{Dialed, Halves, Net};
pub use tcp::{ClosingStream, TcpLink, TcpNet};
