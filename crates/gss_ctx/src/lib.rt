//! Security contexts of RPCSEC_GSS, and what is sealed under them (RFC 2203, RFC 7861).
//!
//! [`Contexts`] is the accepting side: it makes contexts, children that carry a privilege among them, admits
//! calls and seals replies. The contract to read first is that of [`Contexts::admit`], whose answer is the
//! first failing row of the table in `specs/Admission.antt`; the law [`admitted_once`] says of any list of
//! calls that no context admits a sequence number twice. [`Caller`] is the initiating side of one context:
//! it seals calls, and takes exactly the reply that belongs to a call. [`init_call`] and [`init_reply`] make
//! a context, and [`write_create`] and its like spell the arguments and results of CREATE. All codes come
//! from a `Mechanism` of crate `gss_mech`; nothing is claimed of their strength.
#![tactic(auto)]

mod admit;
mod begin;
mod caller;
mod context;
mod contexts;
mod create;
mod laws;
mod making;
mod numbers;
mod sealer;
mod sealing;
mod window;

pub use admit::{Admit, Verdict, Why};
pub use begin::{
    Begun, InitResult, init_call, init_reply, read_init, read_init_result, write_init_result,
};
pub use caller::{Awaited, CALL_ROOM, Caller, Checked, Sealed, call_head};
pub use context::{Context, Entry};
pub use contexts::{Contexts, handle_of, is_live, named_by};
pub use create::{
    CreateResult, read_create, read_create_result, write_create, write_create_result,
};
pub use laws::{admitted_once, ends_meet, sealed_once};
pub use making::Inited;
pub use numbers::{
    CALLBACK_KEY, CHILD_KEY, RPCSEC_GSS_CREATE, RPCSEC_GSS_VERSION_1, RPCSEC_GSS_VERSION_3,
};
pub use sealer::Sealer;
