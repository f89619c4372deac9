//! What a mount asks can be spelled, and what it sends is bytes, whatever the machine above it does (RFC 4506).
//!
//! There is no code here. `specs/Fitting/Fitting.antt` says what holds of a mount between its steps: numbers are below their bounds,
//! and handles, tokens and calls are bytes within their limits. `specs/Fitting/Moving.antt` says what the machine above keeps to, and
//! `specs/Fitting/Answers.antt` what a reply gives. The law to read first is [`what_is_asked_is_spelled`].

mod asking;
mod codes;
mod moving;

pub use asking::calls_are_spelled;
pub use codes::counted_draws_are_nonces;
pub use moving::{mounts_stay_fit, what_is_asked_is_spelled, what_is_heard_is_fit};
