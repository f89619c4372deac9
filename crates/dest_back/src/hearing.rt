//! What a record is to the calls that await their answers.

ghost use Rattle.std.specs.Prelude.{◌≡◌, ◌+◌, ◌≤◌, IfOk, None, Some};
ghost use Rattle.dest_back.specs.Hearing.{by_done, by_reply, heard, heard_at, heard_for, heard_from};
ghost use Rattle.dest_tasks.specs.declared.seats.TheConstants.{SEATS};
ghost use Rattle.nfs_compound.specs.Callbacks.{cb_reply};
ghost use Rattle.wire_xdr.specs.All.{value_of};

use crate::callbacks::{Awaiting, Callbacks, Post};
use crate::compound::is_done;
use dest_tasks::SEATS;
use gss_ctx::{Caller, Checked};
use gss_mech::Mechanism;
use nfs_base::{End, Seal};
use nfs_compound::read_cb_reply;
use outcome::Mem;
use std::alloc::Global;

/// What a record is.
#[derive(Clone, Copy)]
pub enum Hearing {
    /// It answers none of the calls.
    Unmatched,

    /// It answers the call for this job in another way than that it was done: the call stays awaited. Beside it the seal under
    /// which it was accepted, where it was accepted under one.
    Passed(u32, Option<Seal>),

    /// The client was told how this job ended, by an answer under this seal.
    Done(u32, Seal),
}

impl Callbacks {
    /// What a record is. Nothing changes by that.
    pub fn hear<M: Mechanism>(&self, alloc: Global, record_: &[u8], mech: &M) -> Mem<Hearing>
        ensures { IfOk result (λ hearing. hearing ≡ heard M.mic_of record_.now self.now) }
    {
        self.hear_from(alloc, record_, mech, SEATS, 0)
    }

    #[tactic(auto, unfolding(crate::specs::Hearing::heard_from))]
    fn hear_from<M: Mechanism>(
        &self,
        alloc: Global,
        record_: &[u8],
        mech: &M,
        left: u32,
        seat: u32,
    ) -> Mem<Hearing>
        requires { seat + left ≤ SEATS }
        ensures { IfOk result (λ hearing. hearing ≡ heard_from M.mic_of record_.now self.now.posts left seat) }
    {
        if left == 0 {
            return Ok(Hearing::Unmatched);
        }
        match hear_at(alloc, record_, mech, &self.posts[seat as usize])? {
            Hearing::Unmatched => self.hear_from(alloc, record_, mech, left - 1, seat + 1),
            Hearing::Passed(job, accepted) => Ok(Hearing::Passed(job, accepted)),
            Hearing::Done(job, seal) => Ok(Hearing::Done(job, seal)),
        }
    }
}

fn hear_at<M: Mechanism>(
    alloc: Global,
    record_: &[u8],
    mech: &M,
    post: &Option<Post>,
) -> Mem<Hearing>
    ensures { IfOk result (λ hearing. hearing ≡ heard_at M.mic_of record_.now post.now) }
{
    match post {
        None => Ok(Hearing::Unmatched),
        Some(post) => match &post.awaiting {
            None => Ok(Hearing::Unmatched),
            Some(awaiting) => hear_for(alloc, record_, mech, post.job, awaiting),
        },
    }
}

fn hear_for<M: Mechanism>(
    alloc: Global,
    record_: &[u8],
    mech: &M,
    job: u32,
    awaiting: &Awaiting,
) -> Mem<Hearing>
    ensures { IfOk result (λ hearing. hearing ≡ heard_for M.mic_of record_.now job (Some awaiting.now)) }
{
    let key = awaiting.key;
    let caller = Caller::new(End::Client, [0; 8], key);
    match caller.check_reply(alloc, &awaiting.awaited, record_, mech)? {
        Checked::Result(body) => hear_result(alloc, job, awaiting.seal, body.as_slice()),
        Checked::Failed(_) => Ok(Hearing::Passed(job, None)),
        Checked::Denied(_) => Ok(Hearing::Passed(job, None)),
        Checked::Unmatched => Ok(Hearing::Unmatched),
    }
}

fn hear_result(alloc: Global, job: u32, seal: Seal, body: &[u8]) -> Mem<Hearing>
    ensures { IfOk result (λ hearing. hearing ≡ by_reply job seal (value_of cb_reply body.now)) }
{
    match read_cb_reply(alloc, body)? {
        Err(_) => Ok(Hearing::Passed(job, Some(seal))),
        Ok(reply) => Ok(by_done(is_done(&reply), job, seal)),
    }
}

fn by_done(done: bool, job: u32, seal: Seal) -> Hearing
    ensures { result ≡ by_done done job seal }
{
    if done {
        Hearing::Done(job, seal)
    } else {
        Hearing::Passed(job, Some(seal))
    }
}
