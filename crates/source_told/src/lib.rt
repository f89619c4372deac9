//! What a source's steps do to its volume, and that what they tell of it is right (RFC 7862 section 4.8).
//!
//! There is no code here. A source is a server whose own operations make no call on its volume ([`own_operations_call_none`]) and that
//! refuses by failures, so [`source_steps_are_right`] has of it what crate `tell_laws` has of such servers.
#![tactic(auto)]

mod laws;

pub use laws::{own_operations_call_none, source_steps_are_right};
