//! What a client has at one server of a copy: a mount, the files that are open there, and the context under which the
//! server calls back (RFC 8881 sections 2.10 and 18.16).
//!
//! A [`Site`] sends, takes answers and goes down by the calls of its [`mount::Mount`]; each call here is one equation with
//! a definition of `specs/`. A call goes out only where nothing is awaited at its place. The contract to read first is that
//! of [`Site::send`]. Nothing here knows a copy or a queue.
#![tactic(auto)]

mod copying;
mod sending;
mod site;
mod taking;

pub use sending::{may_begin, may_go};
pub use site::{OpenFile, Site, end_of};
pub use taking::Found;
