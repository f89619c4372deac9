//! The calls of a server on its volume, as a step of the server makes them: each is noted with what it answered.
//!
//! A step's model is a function of a [`Choice`](../specs/Choices.antt): by the number of a call in the step it says
//! whether the disk failed. `specs/Calls.antt` has the three calls as such functions, and `specs/Moments.antt` what a
//! crash at any moment of any calls may leave. The contract to read first is that of [`call_commit`]: it is the model's
//! call at each choice that agrees with what was noted, and whatever a crash may leave is left by one of the calls.
//! The words are those of RFC 8881: READ (section 18.22), WRITE (section 18.32), COMMIT (section 18.3).
#![tactic(auto)]

mod asking;
mod laws;
mod used;

pub use asking::{call_commit, call_read, call_write};
pub use laws::{moments_join, one_call_is_one_effect};
pub use used::{CallAnswer, CallList, MOST_CALLS, Used, VolumeCall};
