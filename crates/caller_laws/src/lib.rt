//! The laws of a wire that every caller obeys in every step (`wire_model`'s `CallerLaws`), whatever the machine above it asks.
//!
//! There is no code here. `specs/View.antt` says how a mount looks from outside, `specs/Moves.antt` what its steps are and
//! what is seen of each, `specs/Good.antt` what holds of a mount between steps, `specs/Lawful.antt` what the machine above may
//! do. The law to read first is [`steps_are_lawful`]; the others are parts of it, in words of `specs/Duties.antt`.
//! By [`steps_join`] steps that follow one another are one (`specs/Joining.antt`), and by [`tokens_are_their_senders`] a server
//! takes an INIT as from the end that sent it (`specs/Tokens.antt`). By module:
//!
//! - [`fitting`]: what a mount asks can be spelled, and what it sends is bytes;
//! - [`one_step`]: a run of a mount's steps as one step of a caller, whatever machine is above it;
//! - [`answers`]: what a mount takes is the answer to the call that it awaited.
#![tactic(auto)]

pub mod answers;
pub mod fitting;
mod groups;
mod joining;
mod laws;
pub mod one_step;
mod tokens;

pub use groups::{callers_own_their_contexts, calls_are_awaited, numbers_only_grow};
pub use joining::{steps_join, what_is_sent_follows};
pub use laws::{mounts_begin_lawful, steps_are_lawful};
pub use tokens::tokens_are_their_senders;
