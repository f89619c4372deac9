//! The operations of a copy, as they stand in a COMPOUND (RFC 7862 sections 15 and 16, RFC 7863): COPY,
//! COPY_NOTIFY, OFFLOAD_CANCEL, OFFLOAD_STATUS and CLONE, and the callback CB_OFFLOAD.
//!
//! [`CopyArg`] has the arguments and [`CopyRes`] the results, one variant an operation, one field an item.
//! `specs/Forms.antt` is the table of how each is spelled. The contract to read first is that of
//! [`read_copy_op`], by which arguments are read exactly where they are spelled; [`spelled_once`] has the
//! laws that one value has one spelling and that no spelling begins a longer one.
#![tactic(auto)]

mod arg;
mod args;
mod callback;
mod calls;
mod laws;
mod lengths;
mod operation;
mod res;
mod results;

pub use arg::CopyArg;
pub use args::{CloneArgs, CopyArgs, NotifyArgs};
pub use callback::{CbOffload, OffloadEnd};
pub use calls::{
    read_cb_offload, read_copy_op, read_copy_res, write_cb_offload, write_copy_op, write_copy_res,
};
pub use laws::spelled_once;
pub use lengths::operations_have_lengths;
pub use operation::{
    OP_CB_OFFLOAD, OP_CLONE, OP_COPY, OP_COPY_NOTIFY, OP_OFFLOAD_CANCEL, OP_OFFLOAD_STATUS,
    is_copy_op,
};
pub use res::CopyRes;
pub use results::{CopyAnswer, CopyDone, NotifyGrant, OffloadProgress};
