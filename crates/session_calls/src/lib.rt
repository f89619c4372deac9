//! The compounds that an NFSv4.2 caller of this project sends, and what answers them (RFC 8881 and RFC 7862).
//!
//! A [`SoleCall`] stands alone in its compound: it makes or ends a client or a session. A [`SlotCall`] goes in a slot
//! of a session, behind SEQUENCE. Each is one compound, told by `specs/Calls.antt`, with what a caller says where a
//! field is free. The contract to read first is that of [`SlotCall::compound`]; the law [`calls_are_simple`] says that
//! none of them makes a server call its volume more than once, and [`is_answer`] tells which replies answer a call.
#![tactic(auto)]

mod answer;
mod compound;
mod laws;
mod slot_call;
mod sole_call;

pub use answer::is_answer;
pub use compound::LONGEST_CALL;
pub use laws::calls_are_simple;
pub use slot_call::{CopyRange, FileCall, HIGHEST_SLOT, SlotCall, SlotUse};
pub use sole_call::{BackChannel, SoleCall};
