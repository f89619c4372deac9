//! How a destination tells a client that its copy has ended: CB_OFFLOAD on the back channel of the session on which its COPY
//! came (RFC 7862 sections 4.2.2 and 16.1, RFC 8881 section 2.10.3.1).
//!
//! [`Callbacks`] has by seat what is told of a job, and the call that awaits its answer. [`Callbacks::tell`] sends a new call,
//! [`Callbacks::tell_again`] the same once more, and [`Callbacks::hear`] says what a record is to them. The contract to read
//! first is that of [`Callbacks::tell`], over `specs/Telling.antt`. A call without memory promises nothing of the state: a step
//! works on a copy, and puts it in the place of the old one once it has all its memory.
#![tactic(auto)]

mod callbacks;
mod compound;
mod hearing;
mod line;
mod telling;

pub use callbacks::{Awaiting, Callbacks, Party, Post};
pub use compound::{Ended, HIGHEST_SLOT};
pub use hearing::Hearing;
pub use line::Line;
pub use telling::{CallAt, Sent};
