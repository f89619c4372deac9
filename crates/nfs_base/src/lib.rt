//! The words that every layer speaks: the servers, statuses, stateids, handles, network locations, jobs by
//! name, and the limits.
//!
//! Types of the wire are those of RFC 8881 and RFC 7862 that more than one operation has. Each is spelled
//! by a form of `specs/Forms.antt`, one a type; [`Answer`] is what any operation answers. The contract to
//! read first is that of [`wire_xdr::read`], which [`read_state_id`] and its like have at one type each.
//! What a transcript names (servers, jobs, why one was stopped, causes) prints as `specs/Text.antt` has it.
#![tactic(auto)]

mod answer;
mod calls;
mod cause;
mod copy_spec;
mod handle;
mod job;
mod lengths;
mod limits;
mod net_loc;
mod programs;
mod seal;
mod side;
mod state_id;
mod status;
mod time;
mod written;

pub use answer::Answer;
pub use calls::{
    read_handle, read_net_loc, read_state_id, read_status, read_time, write_handle, write_net_loc,
    write_state_id, write_status, write_time,
};
pub use cause::{Cause, PrivCause};
pub use copy_spec::CopySpec;
pub use handle::Handle;
pub use job::{JobName, Stop};
pub use lengths::{answers_have_lengths, common_types_have_lengths};
pub use limits::{
    BLOCK_SIZE, CHUNK_SIZE, CONTEXT_IDLE, DATA_LIMIT, HANDLE_LIMIT, INPUT_LIMIT, LEASE_SECONDS,
    MOST_BLOCKS, MOST_CLIENTS, MOST_CONTEXTS, MOST_FILES, MOST_GRANTS, MOST_JOBS, MOST_NET_LOCS,
    MOST_OPENS, MOST_OPERATIONS, MOST_SESSIONS, NAME_LIMIT, PRIVILEGE_LIMIT, SECRET_LEAST,
    SECRET_LIMIT, SLOTS, TEXT_LIMIT, TOKEN_LIMIT, WINDOW_SIZE,
};
pub use net_loc::NetLoc;
pub use programs::{
    CALLBACK_PROGRAM, CALLBACK_VERSION, NFS_PROGRAM, NFS_VERSION, PROC_COMPOUND, PROC_NULL,
};
pub use seal::{End, Seal};
pub use side::Side;
pub use state_id::StateId;
pub use status::Status;
pub use time::Time;
pub use written::{Stability, WriteResponse};
