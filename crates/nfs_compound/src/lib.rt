//! COMPOUND and CB_COMPOUND (RFC 8881 sections 16.2 and 20.2, RFC 7863): operations behind their count, read,
//! written, and evaluated in order.
//!
//! A [`Compound`] has the operations up to the first that can't be read or isn't served, and a [`Tail`] that
//! says where that stands and why. `specs/Compounds.antt` and `specs/Body.antt` say what bytes are as a
//! compound; the contract to read first is that of [`read_compound`]. [`walk`] evaluates a compound with an
//! [`Actor`], up to the first status other than 0: `specs/Walk.antt` says what that is, of any actor. The same
//! names with `Cb` are those of callbacks.
#![tactic(auto)]

mod body;
mod cb_compound;
mod cb_op;
mod cb_reply;
mod cb_res;
mod compound;
mod evaluation;
mod held;
mod laws;
mod lengths;
mod limits;
mod op;
mod operation;
mod refusal;
mod reply;
mod res;
mod tail;

pub use cb_compound::{CbCompound, read_cb_compound, write_cb_compound};
pub use cb_op::{CbOp, cb_name_of};
pub use cb_reply::{CbReply, read_cb_reply, write_cb_reply};
pub use cb_res::CbRes;
pub use compound::{Compound, MINOR_VERSION, read_compound, write_compound};
pub use evaluation::{Actor, walk};
pub use held::Held;
pub use laws::{compounds_are_spelled, written_compounds_are_read};
pub use lengths::{compounds_have_lengths, replies_have_lengths};
pub use op::{Op, name_of};
pub use operation::{Class, Operation};
pub use reply::{Reply, read_reply_body, write_reply_body};
pub use res::Res;
pub use tail::Tail;
