//! What a mount takes as the answer to a call.
//!
//! There is no code here. By [`answers_are_awaited`] an answer that a mount is told is the reply to the call that it awaited there,
//! and what the reply's results spell (`specs/Answers/Awaited.antt`); by [`replies_are_judged`] a reply is never judged a call.

mod laws;

pub use laws::{answers_are_awaited, replies_are_judged};
