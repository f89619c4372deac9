//! The file and session operations of NFSv4.1 that a copy needs (RFC 8881 sections 18 and 20), read and
//! written exactly.
//!
//! [`FileArg`] is an operation with its arguments, [`FileRes`] what one answers, and [`CbSeq`] the
//! CB_SEQUENCE of a callback. Each type is spelled by a form: `specs/Args.antt` and `specs/Results.antt`
//! say which form belongs to which number, `specs/Operations.antt` has the names. The contract to read first is
//! that of [`read_file_op`]: arguments are read exactly where the bytes begin with their spelling, a
//! refusal names the first place that fails, and the reader then stands where it stood. An operation that
//! these ends don't serve whatever its last fields say is cut ([`FileArg::is_cut`]): it is read up to the
//! word that decides this.
#![tactic(auto)]

mod args;
mod callbacks;
mod files;
mod lengths;
mod opening;
mod operation;
mod parms;
mod results;
mod sessions;
mod zero;

pub use args::{FileArg, arguments_have_one_spelling, read_file_op, write_file_op};
pub use callbacks::{
    CbSeq, CbSeqDone, ReferringCall, ReferringCalls, cb_seq_has_one_spelling, read_cb_seq,
    read_cb_seq_res, write_cb_seq, write_cb_seq_res,
};
pub use files::{
    ATTR_CHANGE, ATTR_LEASE_TIME, ATTR_SIZE, ATTR_TYPE, Attributes, CloseArgs, CommitArgs,
    ReadArgs, ReadDone, WriteArgs, WriteDone,
};
pub use lengths::{callbacks_have_lengths, operations_have_lengths};
pub use opening::{Claim, OpenArgs, OpenDone, OpenHow};
pub use operation::{
    OP_CB_SEQUENCE, OP_CLOSE, OP_COMMIT, OP_CREATE_SESSION, OP_DESTROY_CLIENTID,
    OP_DESTROY_SESSION, OP_EXCHANGE_ID, OP_GETATTR, OP_GETFH, OP_ILLEGAL, OP_LOOKUP, OP_OPEN,
    OP_PUTFH, OP_PUTROOTFH, OP_READ, OP_RECLAIM_COMPLETE, OP_RESTOREFH, OP_SAVEFH, OP_SEQUENCE,
    OP_WRITE, file_op_name, is_file_op,
};
pub use parms::{ChannelAttrs, GssParm, SecParm, SysParm};
pub use results::{FileRes, read_file_res, results_have_one_spelling, write_file_res};
pub use sessions::{
    CONN_BACK_CHAN, CreateSessionArgs, CreateSessionDone, ExchangeIdArgs, ExchangeIdDone, ImplId,
    Protection, SequenceArgs, SequenceDone,
};
pub use zero::Zero;
