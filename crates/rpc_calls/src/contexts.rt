ghost use Rattle.std.specs.Prelude.{◌≡◌, ◌+◌, ◌<◌, ◌≤◌, ◌++◌, [], length, IfOk, OnErr, Some, replicate, true};
ghost use Rattle.outcome.specs.Causes.{Rose};
ghost use Rattle.wire_xdr.specs.Page.{Added};
ghost use Rattle.rpc_msg.specs.Heads.{reply};
ghost use Rattle.rpc_msg.specs.declared.reply.ReplyHead.TheVariants.{Accepted};
ghost use Rattle.rpc_msg.specs.declared.reply.Stat.TheVariants.{Success};
ghost use Rattle.gss_ctx.specs.Forms.{init_result};
ghost use Rattle.gss_ctx.specs.Making.{HasShortToken};
ghost use Rattle.rpc_calls.specs.Making.{refused_major, init_reply, init_answer, AnswersInit, made_seal};

use crate::call::Call;
use crate::numbers::{
    GSS_S_COMPLETE, GSS_S_DEFECTIVE_TOKEN, GSS_S_FAILURE, MINOR_BAD_TOKEN, MINOR_DRAW_FAILED,
};
use gss_ctx::{Contexts, Inited};
use gss_mech::Mechanism;
use nfs_base::Seal;
use outcome::Mem;
use rpc_msg::{AUTH_NONE, MSG_ACCEPTED, REPLY, RPCSEC_GSS, SUCCESS};
use std::alloc::Global;
use streams::Draws;
use wire_xdr::{Octets, Page};

/// The most bytes that a reply to INIT has: its token has at most 4,096.
pub const INIT_ROOM: usize = 4224;

/// How INIT was answered: the record, the number of the context that was made, and whether a draw failed.
#[derive(Drop)]
pub struct InitAnswer {
    pub bytes: Octets,

    /// The major status that the record says, 0 where a context was made.
    pub major: u32,

    pub made: Option<u32>,
    pub draw_failed: bool,
}

impl InitAnswer {
    /// The seal of the reply: that of the context that was made, with number 0. None where none was made.
    pub fn seal<P>(&self, contexts: &Contexts<P>) -> Option<Seal>
        ensures { result ≡ made_seal contexts.now self.now.made }
    {
        match self.made {
            Some(number) => Some(contexts.seal(number, 0)),
            None => None,
        }
    }
}

/// Answers INIT (RFC 2203 section 5.2.3) with the result of making a context of the token: the next number is its own,
/// and the dead contexts are taken out. Where none is made, the major status says why. The draws' count of faults never
/// falls, and a draw is told as failed only where it rose.
pub fn answer_init<P: Drop, M: Mechanism, W: Draws>(
    contexts: &mut Contexts<P>,
    alloc: Global,
    call: &Call,
    token: &[u8],
    now: u64,
    mech: &M,
    draws: &mut W,
) -> Mem<InitAnswer>
    requires { contexts.old.made < 4294967295 }
    ensures ok { IfOk result (AnswersInit M.mic_of (M.accepted mech.now token.now) W.gives now call.now.head.xid (M.accepted mech.now token.now (replicate 32 0)) contexts.old contexts.new draws.old draws.new) }
    ensures err { OnErr result (contexts.new ≡ contexts.old) }
    ensures later { W.faults draws.old ≤ W.faults draws.new }
    ensures drawn { IfOk result (λ told. told.draw_failed ≡ true → Rose (W.faults draws.old) (W.faults draws.new)) }
    ensures short { IfOk result (λ told. length told.bytes ≤ INIT_ROOM) }
    ensures failing { W.failing draws.new ≡ W.failing draws.old }
{
    let page = Page::new(alloc, INIT_ROOM)?;
    let number = contexts.made() + 1;
    let answer = contexts.init(alloc, token, now, mech, draws)?;
    Ok(init_answer(page, call.head.xid, number, &answer))
}

/// The reply with this answer, written into a page that has room for it.
fn init_answer(mut page: Page, xid: u32, number: u32, answer: &Inited) -> InitAnswer
    requires empty { page.bytes ≡ [] }
    requires room { INIT_ROOM ≤ page.room }
    requires token { HasShortToken answer.now }
    ensures is { result ≡ init_answer xid number answer.now }
    ensures short { length result.bytes ≤ INIT_ROOM }
{
    put_init(&mut page, xid, answer);
    let bytes = page.finish();
    match answer {
        Inited::Made { .. } => InitAnswer {
            bytes,
            major: GSS_S_COMPLETE,
            made: Some(number),
            draw_failed: false,
        },
        Inited::Refused { minor } => InitAnswer {
            bytes,
            major: refused_major(*minor),
            made: None,
            draw_failed: *minor == MINOR_DRAW_FAILED,
        },
    }
}

/// The reply to INIT.
fn put_init(page: &mut Page, xid: u32, answer: &Inited)
    requires room { length page.old.bytes + INIT_ROOM ≤ page.old.room }
    requires token { HasShortToken answer.now }
    ensures bytes { page.new.bytes ≡ page.old.bytes ++ init_reply xid answer.now }
    ensures len { length page.new.bytes ≤ length page.old.bytes + INIT_ROOM }
{
    match answer {
        Inited::Made {
            handle,
            window,
            token,
            verifier,
        } => {
            put_front(page, xid, RPCSEC_GSS, verifier);
            put_result(page, handle, GSS_S_COMPLETE, 0, *window, token.as_slice());
        }
        Inited::Refused { minor } => {
            put_front(page, xid, AUTH_NONE, &[]);
            put_result(page, &[], refused_major(*minor), *minor, 0, &[]);
        }
    }
}

/// The major status of an INIT that was refused.
fn refused_major(minor: u32) -> u32
    ensures { result ≡ refused_major minor }
{
    if minor == MINOR_BAD_TOKEN {
        GSS_S_DEFECTIVE_TOKEN
    } else {
        GSS_S_FAILURE
    }
}

/// A reply up to its result, with the status SUCCESS.
#[tactic(auto, unfolding(rpc_msg::specs::Heads::reply, rpc_msg::specs::Heads::auth, rpc_msg::specs::Heads::stat))]
fn put_front(page: &mut Page, xid: u32, flavor: u32, verifier: &[u8])
    requires short { length verifier.now ≤ 32 }
    requires room { length page.old.bytes + 100 ≤ page.old.room }
    ensures added { Added page.old (reply.spell (Accepted xid (record { flavor = flavor; body = verifier.now }) Success)) page.new }
    ensures len { length page.new.bytes ≤ length page.old.bytes + 60 }
{
    page.u32(xid);
    page.u32(REPLY);
    page.u32(MSG_ACCEPTED);
    page.u32(flavor);
    page.opaque(verifier);
    page.u32(SUCCESS);
}

/// The result of INIT.
#[tactic(auto, unfolding(gss_ctx::specs::Forms::init_result))]
fn put_result(page: &mut Page, handle: &[u8], major: u32, minor: u32, window: u32, token: &[u8])
    requires handle { length handle.now ≤ 8 }
    requires token { length token.now ≤ 4096 }
    requires room { length page.old.bytes + 4164 ≤ page.old.room }
    ensures added { Added page.old (init_result.spell (record { handle = handle.now; major = major; minor = minor; window = window; token = token.now })) page.new }
    ensures len { length page.new.bytes ≤ length page.old.bytes + 4164 }
{
    page.opaque(handle);
    page.u32(major);
    page.u32(minor);
    page.u32(window);
    page.opaque(token);
}
