//! What the operations of these ends ask and what their results say (`wire_model`'s `Meaning`).
//!
//! There is no code here. `specs/Meaning.antt` has for each question the compound by which these ends ask it (RFC 8881
//! sections 18.7 and 18.22, RFC 7862 sections 15.2, 15.9 and 16.1), and what its results say. By [`questions_are_read`] a
//! question is read back from the bytes that ask it.
#![tactic(auto)]

mod laws;

pub use laws::questions_are_read;
