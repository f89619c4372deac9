//! What becomes of a server's contexts, as a wire sees them (RFC 2203, RFC 7861).
//!
//! There is no code here. `specs/View.antt` says what the root of a context is, and what it is that contexts follow others;
//! `specs/TableLaws.antt` that they do so whatever a call does to them; `specs/JudgedLaws.antt` that what a call says is what
//! it is judged to be; `specs/MadeLaws.antt` which contexts INIT and CREATE make. [`contexts_follow`] is the contract to read
//! first.
#![tactic(auto)]

mod calls;
mod tables;

pub use calls::{calls_are_judged, contexts_are_made};
pub use tables::contexts_follow;
