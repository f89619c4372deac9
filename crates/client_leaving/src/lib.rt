//! A client that takes leave of its servers (RFC 8881 sections 18.2, 18.37 and 18.50, RFC 2203 section 5.4).
//!
//! A [`Leaving`] is made of a [`client_core::Client`] of whom nothing is awaited, and begins nothing more: it closes what is open, and ends its
//! sessions, its client IDs and its contexts, each call once the one before it is answered. The contract to read first is that of
//! [`Leaving::farewell`], with `specs/Leaving.antt`, and `specs/Parting.antt` of crate `client_steps` for the calls.
#![tactic(auto)]

mod leaving;

pub use leaving::Leaving;
