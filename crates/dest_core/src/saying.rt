//! What COPY and OFFLOAD_STATUS answer, written behind the results before (RFC 7863).

ghost use Rattle.std.specs.Prelude.{◌≡◌, ◌+◌, ◌≤◌, ◌++◌, length};
ghost use Rattle.compound_server.specs.Serves.{served_bytes};
ghost use Rattle.copy_ops.specs.Forms.{copy_done, offload_progress};
ghost use Rattle.copy_ops.specs.Operations.{copy_answer_status};
ghost use Rattle.copy_ops.specs.declared.res.CopyRes.TheVariants as results;
ghost use Rattle.file_server.specs.Answering.{Says};
ghost use Rattle.nfs_base.specs.Answers.{answer_status};
ghost use Rattle.nfs_base.specs.Forms.{stability, state_id, status, write_response};
ghost use Rattle.nfs_base.specs.declared.status.TheConstants.Status.{OFFLOAD_NO_REQS};
ghost use Rattle.wire_xdr.specs.Forms.{option};
ghost use Rattle.wire_xdr.specs.Page.{Added};
ghost use Rattle.wire_xdr.specs.Words.{fixed_bytes, flag_bytes, word_bytes};

use copy_ops::{CopyAnswer, CopyDone, OP_COPY, OP_OFFLOAD_STATUS, OffloadProgress};
use file_server::Progress;
use nfs_base::{Answer, Stability, StateId, Status, WriteResponse};
use wire_xdr::Page;

/// Says what COPY answers.
pub(crate) fn say_copy(p: &mut Progress, answer: CopyAnswer) -> Status
    requires { length p.old.page.bytes + 400 ≤ p.old.page.room }
    ensures says { Says p.old (served_bytes (results.Copy answer)) p.new }
    ensures len { length p.new.page.bytes ≤ length p.old.page.bytes + 400 }
    ensures status { result ≡ copy_answer_status answer }
{
    match answer {
        CopyAnswer::Refused(status) => p.refuse(OP_COPY, status),
        CopyAnswer::NoReqs {
            consecutive,
            synchronous,
        } => say_no_reqs(p, consecutive, synchronous),
        CopyAnswer::Done(done) => say_taken(p, done),
    }
}

/// COPY can't be done in the way that was asked for, but in this one.
fn say_no_reqs(p: &mut Progress, consecutive: bool, synchronous: bool) -> Status
    requires { length p.old.page.bytes + 16 ≤ p.old.page.room }
    ensures says { Says p.old (word_bytes OP_COPY ++ (word_bytes OFFLOAD_NO_REQS.number ++ (flag_bytes consecutive ++ flag_bytes synchronous))) p.new }
    ensures len { length p.new.page.bytes ≤ length p.old.page.bytes + 16 }
    ensures status { result ≡ OFFLOAD_NO_REQS }
{
    p.page.u32(OP_COPY);
    p.page.u32(Status::OFFLOAD_NO_REQS.number);
    p.page.flag(consecutive);
    p.page.flag(synchronous);
    Status::OFFLOAD_NO_REQS
}

/// COPY is taken as a job.
fn say_taken(p: &mut Progress, done: CopyDone) -> Status
    requires { length p.old.page.bytes + 108 ≤ p.old.page.room }
    ensures says { Says p.old (word_bytes OP_COPY ++ (word_bytes 0 ++ copy_done.spell done)) p.new }
    ensures len { length p.new.page.bytes ≤ length p.old.page.bytes + 108 }
    ensures status { result ≡ Status.OK }
{
    p.page.u32(OP_COPY);
    p.page.u32(0);
    put_done(&mut p.page, done);
    Status::OK
}

#[tactic(auto, unfolding(copy_ops::specs::Forms::copy_done))]
fn put_done(page: &mut Page, done: CopyDone)
    requires { length page.old.bytes + 100 ≤ page.old.room }
    ensures added { Added page.old (copy_done.spell done) page.new }
    ensures len { length page.new.bytes ≤ length page.old.bytes + 100 }
{
    put_response(page, done.response);
    page.flag(done.consecutive);
    page.flag(done.synchronous);
}

#[tactic(auto, unfolding(nfs_base::specs::Forms::write_response))]
fn put_response(page: &mut Page, response: WriteResponse)
    requires { length page.old.bytes + 60 ≤ page.old.room }
    ensures added { Added page.old (write_response.spell response) page.new }
    ensures len { length page.new.bytes ≤ length page.old.bytes + 60 }
{
    put_copy_id(page, response.callback_id);
    page.u64(response.count);
    put_stability(page, response.committed);
    put_verifier(page, &response.verifier);
}

/// A stateid, where there is one.
#[tactic(auto, unfolding(wire_xdr::specs::Parts::option_spell))]
fn put_copy_id(page: &mut Page, id: Option<StateId>)
    requires { length page.old.bytes + 20 ≤ page.old.room }
    ensures added { Added page.old ((option state_id).spell id) page.new }
    ensures len { length page.new.bytes ≤ length page.old.bytes + 20 }
{
    match id {
        None => page.flag(false),
        Some(id) => {
            page.flag(true);
            put_state_id(page, &id);
        }
    }
}

#[tactic(auto, unfolding(nfs_base::specs::Forms::state_id))]
fn put_state_id(page: &mut Page, id: &StateId)
    requires { length page.old.bytes + 16 ≤ page.old.room }
    ensures added { Added page.old (state_id.spell id.now) page.new }
    ensures len { length page.new.bytes ≤ length page.old.bytes + 16 }
{
    page.u32(id.seqid);
    page.u32(id.kind);
    page.u32(id.boot);
    page.u32(id.number);
}

fn put_stability(page: &mut Page, how: Stability)
    requires { length page.old.bytes + 4 ≤ page.old.room }
    ensures added { Added page.old (stability.spell how) page.new }
    ensures len { length page.new.bytes ≤ length page.old.bytes + 4 }
{
    page.u32(stability_number(how));
}

/// The number of a stability (stable_how4).
#[tactic(auto, unfolding(nfs_base::specs::Forms::stability))]
fn stability_number(how: Stability) -> u32
    ensures { word_bytes result ≡ stability.spell how }
{
    match how {
        Stability::Unstable => 0,
        Stability::DataSync => 1,
        Stability::FileSync => 2,
    }
}

fn put_verifier(page: &mut Page, verifier: &[u8; 8])
    requires { length page.old.bytes + 8 ≤ page.old.room }
    ensures added { Added page.old (fixed_bytes verifier.now) page.new }
    ensures len { length page.new.bytes ≤ length page.old.bytes + 8 }
{
    page.append(verifier);
}

/// Says what OFFLOAD_STATUS answers.
pub(crate) fn say_status(p: &mut Progress, answer: &Answer<OffloadProgress>) -> Status
    requires { length p.old.page.bytes + 400 ≤ p.old.page.room }
    ensures says { Says p.old (served_bytes (results.OffloadStatus answer.now)) p.new }
    ensures len { length p.new.page.bytes ≤ length p.old.page.bytes + 400 }
    ensures status { result ≡ answer_status answer.now }
{
    match answer {
        Answer::Refused(status) => p.refuse(OP_OFFLOAD_STATUS, *status),
        Answer::Done(progress) => say_progress(p, progress),
    }
}

/// OFFLOAD_STATUS is done: the job is so far.
fn say_progress(p: &mut Progress, progress: &OffloadProgress) -> Status
    requires { length p.old.page.bytes + 28 ≤ p.old.page.room }
    ensures says { Says p.old (word_bytes OP_OFFLOAD_STATUS ++ (word_bytes 0 ++ offload_progress.spell progress.now)) p.new }
    ensures len { length p.new.page.bytes ≤ length p.old.page.bytes + 28 }
    ensures status { result ≡ Status.OK }
{
    p.page.u32(OP_OFFLOAD_STATUS);
    p.page.u32(0);
    put_progress(&mut p.page, progress);
    Status::OK
}

#[tactic(auto, unfolding(copy_ops::specs::Forms::offload_progress))]
fn put_progress(page: &mut Page, progress: &OffloadProgress)
    requires { length page.old.bytes + 20 ≤ page.old.room }
    ensures added { Added page.old (offload_progress.spell progress.now) page.new }
    ensures len { length page.new.bytes ≤ length page.old.bytes + 20 }
{
    page.u64(progress.count);
    put_complete(page, progress.complete);
}

/// A status, where there is one.
#[tactic(auto, unfolding(nfs_base::specs::Forms::status, wire_xdr::specs::Parts::option_spell))]
fn put_complete(page: &mut Page, complete: Option<Status>)
    requires { length page.old.bytes + 8 ≤ page.old.room }
    ensures added { Added page.old ((option status).spell complete) page.new }
    ensures len { length page.new.bytes ≤ length page.old.bytes + 8 }
{
    match complete {
        None => page.flag(false),
        Some(status) => {
            page.flag(true);
            page.u32(status.number);
        }
    }
}
