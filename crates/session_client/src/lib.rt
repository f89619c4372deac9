//! What every caller of an NFSv4.2 server does alike (RFC 8881 section 2.10, RFC 2203).
//!
//! A caller begins a context ([`PendingInit`]), seals its calls under it ([`Asked::seal`]), numbers them in the slots of
//! its session ([`SlotNumbers`]), and takes the one record that answers a call. The contract to read first is that of
//! [`PendingCall::take`]: an answer has the xid that is awaited now, the verifier and the seal of its call, and spells
//! results of a front of the call's operations. What is sent again is the same compound, so its number in the slot stays
//! ([`PendingCall::sent_again`]).
#![tactic(auto)]

mod answers;
mod asked;
mod beginning;
mod laws;
mod pending;
mod sealing;
mod setup;
mod slots;

pub use answers::{Taken, TakenChild, take_answer, take_child};
pub use asked::Asked;
pub use beginning::PendingInit;
pub use laws::{answers_are_awaited, calls_go_out_as_calls, slot_numbers_count_up};
pub use pending::PendingCall;
pub use sealing::{CallKind, SealedCall, seal_compound, seal_under};
pub use setup::Setup;
pub use slots::SlotNumbers;
