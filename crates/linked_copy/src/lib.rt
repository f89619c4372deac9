//! One copy between two servers of a net (RFC 7862 section 4).
//!
//! [`copy_over`] dials both servers, lets a client make the copy over the two links (`single_copy::copy_once`), hangs both links up
//! whatever came, and puts what became of the copy. Its contract is the one to read first: `specs/Copying.antt` says what was done,
//! `specs/Ends.antt` how it ends and what is put then, each with its cause, and `specs/Nets.antt` what becomes of the net. That a
//! port leads to the server that is meant is the net's matter, and isn't promised.
#![tactic(auto)]

mod copying;
mod dialed_link;
mod dialing;
mod ends;
mod telling;

pub use copying::{CopyOrder, copy_over};
pub use ends::CopyEnd;
