//! The writes and commits of a client at one server (RFC 8881 sections 18.3 and 18.32): they go out in one slot, each once
//! the one before it is answered.
//!
//! A [`WriteQueue`] has those that aren't answered yet in their order, and the verifiers of the writes that were. What is
//! due goes out once its file is open; a work may carry the OPEN of its file. What happens is planned first, over the queue
//! as it is ([`QueuePlan`]), and put in place by [`WriteQueue::put`], which takes no memory. [`QueuePlan::on`] is all that
//! happens to the first of them; its contract is the one to read first, with `specs/Steps.antt`. In `laws.rt` stands that each work is
//! answered by one line, in the order in which they came.
#![tactic(auto)]

mod laws;
mod plan;
mod queue;
mod seen;
mod work;

pub use laws::works_are_answered_in_order;
pub use plan::QueuePlan;
pub use queue::{Head, WriteQueue};
pub use seen::Seen;
pub use work::{Line, QueueEvent, Work};
