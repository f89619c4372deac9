//! What the records of these ends say, as far as the laws of a wire speak of it (`wire_model`'s `Spelling`).
//!
//! There is no code here. `specs/Calls.antt` says what a record says as a call, `specs/Slots.antt` which slot a call names
//! and which operations it carries, `specs/Replies.antt` what it says as a reply; `specs/Spelling.antt` puts them together.
//! Each is a function of the record's bytes, so it is said of any record, whoever made it; whether a code is right is
//! never looked at, since the runner's check of seals is about that. That what is written is read back so is
//! [`calls_read_back`], [`replies_read_back`] and [`runs_are_told`].
#![tactic(auto)]

mod laws;

pub use laws::{calls_read_back, replies_read_back, runs_are_told};
