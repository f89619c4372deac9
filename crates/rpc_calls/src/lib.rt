//! Calls to an end that accepts them, under RPCSEC_GSS or not: what a record is, and how what isn't a COMPOUND is answered.
//!
//! [`judge`] says what a record is to the end that serves a [`Program`], and changes nothing. Its contract is the one to
//! read first: the answer is `judged_of` of `specs/Judging.antt`, one small definition a rule (RFC 5531 section 9, RFC
//! 2203 section 5, RFC 7861 section 2). [`deny`], [`fail`], [`answer_null`], [`answer_destroy`], [`answer_init`] and
//! [`answer_create`] count a call and give the record that answers it; each takes its memory before it changes anything.
//! A COMPOUND is answered by its server, with `Contexts::sealer`, then [`count`], then `Sealer::seal`.
#![tactic(auto)]

mod answers;
mod call;
mod children;
mod contexts;
mod judging;
mod numbers;

pub use answers::{answer_destroy, answer_null, count, deny, fail};
pub use call::{Call, Judged, Program, Under, What};
pub use children::{CreateAnswer, answer_create};
pub use contexts::{INIT_ROOM, InitAnswer, answer_init};
pub use judging::judge;
pub use numbers::{
    GSS_S_COMPLETE, GSS_S_DEFECTIVE_TOKEN, GSS_S_FAILURE, MINOR_BAD_TOKEN, MINOR_DRAW_FAILED,
    MINOR_FULL, RPCSEC_GSS_PRIVILEGE_PROBLEM,
};
