//! Messages of RPC on a stream: records, the heads of calls and replies, and links that give records.
//!
//! [`RecordFeed`] puts records together from the pieces of a stream (RFC 5531 section 11), and
//! [`pump_records`] gives them to a handler and puts its replies. [`read_call`], [`read_reply`] and their
//! like read and write heads (RFC 5531 section 9), whose spelling stands in `specs/Heads.antt`. A
//! [`Watched`] link gives records one at a time, and tells why it is down. The contracts to read first
//! are those of [`RecordFeed::feed`] and [`read_call`], and the law `pieces_join`. What `streams` offers is
//! passed on.
#![tactic(auto)]

mod auth;
mod call;
mod fragments;
mod gss_cred;
mod messages;
mod numbers;
mod pump;
mod records;
mod reply;
mod watched;

pub use auth::Auth;
pub use call::CallHead;
pub use gss_cred::{GssCred, read_gss_cred};
pub use messages::{
    RpcFault, heads_are_spelled_once, read_call, read_reply, system_error, write_call, write_reply,
};
pub use numbers::{
    AUTH_BADCRED, AUTH_ERROR, AUTH_LIMIT, AUTH_NONE, AUTH_SYS, AUTH_TOOWEAK, CALL, GARBAGE_ARGS,
    MSG_ACCEPTED, MSG_DENIED, PROC_UNAVAIL, PROG_MISMATCH, PROG_UNAVAIL, REPLY,
    RPC_GSS_SVC_INTEGRITY, RPC_GSS_SVC_NONE, RPC_GSS_SVC_PRIVACY, RPC_MISMATCH, RPC_VERSION,
    RPCSEC_GSS, RPCSEC_GSS_CONTINUE_INIT, RPCSEC_GSS_CREDPROBLEM, RPCSEC_GSS_CTXPROBLEM,
    RPCSEC_GSS_DATA, RPCSEC_GSS_DESTROY, RPCSEC_GSS_INIT, SUCCESS, SYSTEM_ERR,
};
pub use outcome::{Planned, nothing_planned};
pub use pump::{Handler, Pumped, pump_records};
pub use records::{Fed, RECORD_LIMIT, RecordFeed, mark, pieces_join};
pub use reply::{Denial, ReplyHead, Stat};
pub use streams::{
    Clock, CountDraws, Drawn, Draws, MemDraws, MemSink, MemSource, Put, Reading, Sink, Source,
    Take, Whole, WriteFault, Writing, put_all, puts_join, read_whole, take_some,
};
pub use watched::{Down, Got, Watched, nexts_join};
