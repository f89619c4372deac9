//! What a call is answered by (RFC 5531 section 9, RFC 2203 section 5.3.3), for every end that answers calls.
//!
//! There is no code here. By [`judged_calls_are_spoken`] what a call is judged to be can be spelled in an answer, by
//! [`answers_are_replies`] each answer is a reply, and by [`seals_are_own`] what is accepted is sealed by the end's own contexts.
//! The crates of the ends cite the lemmas themselves (`specs/SaysLaws.antt`, `specs/ReplyLaws.antt`, `specs/SealLaws.antt`).
#![tactic(auto)]

mod laws;

pub use laws::{answers_are_replies, judged_calls_are_spoken, seals_are_own};
