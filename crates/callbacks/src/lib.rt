//! What a client answers to CB_COMPOUND (RFC 8881 section 20, RFC 7862 section 16.1).
//!
//! [`evaluate`] is all of it, and its contract the one to read first: `specs/Callbacks.antt` says what each operation is
//! answered by, over the client's copies. A CB_OFFLOAD may come twice without harm, so each slot and number of a
//! CB_SEQUENCE is taken, and no reply is kept.
#![tactic(auto)]

mod evaluation;
mod laws;

pub use evaluation::{Answered, Told, evaluate};
pub use laws::answers_can_be_written;
