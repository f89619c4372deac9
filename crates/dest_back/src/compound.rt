//! CB_OFFLOAD in a compound, and what says that it was done.

ghost use Rattle.std.specs.Prelude.{◌≡◌, ◌<◌, ◌≢◌, ◌^◌, IfOk, IfSome};
ghost use Rattle.copy_ops.specs.Forms.{offload_end};
ghost use Rattle.dest_back.specs.Compounds.{are_done, end_told, failure, is_done, is_offload, is_sequence, offload_compound, offload_op, sequence_op};
ghost use Rattle.nfs_base.specs.Forms.{state_id, write_response};
ghost use Rattle.nfs_compound.specs.Callbacks.{cb_operation};
ghost use Rattle.nfs_compound.specs.Compounds.{CbCompoundFits};

use copy_ops::{CbOffload, OffloadEnd};
use file_ops::CbSeq;
use nfs_base::{Handle, StateId, Status, WriteResponse};
use nfs_compound::{CbCompound, CbOp, CbReply, CbRes, MINOR_VERSION, Tail};
use outcome::Mem;
use session_calls::SlotUse;
use std::alloc::Global;
use wire_xdr::{Items, Octets};

/// The highest slot that is used.
pub const HIGHEST_SLOT: u32 = 15;

/// What is told of a copy: it went to this file, has this stateid, and ended so.
#[derive(Clone, Copy)]
pub struct Ended {
    pub file: Handle,
    pub id: StateId,
    pub end: OffloadEnd,
}

/// The compound that tells it.
pub(crate) fn offload_compound(alloc: Global, at: SlotUse, told: &Ended) -> Mem<CbCompound>
    ensures is { IfOk result (λ compound. compound ≡ offload_compound at told.now) }
    ensures fits { IfOk result CbCompoundFits }
{
    let mut ops = Items::new(alloc);
    ops.push(sequence_op(alloc, at))?;
    ops.push(offload_op(told))?;
    Ok(CbCompound {
        tag: Octets::from_vec(Vec::new(alloc)),
        minor: MINOR_VERSION,
        ident: 0,
        count: 2,
        ops,
        tail: Tail::Whole,
    })
}

#[tactic(auto, unfolding(nfs_compound::specs::Callbacks::cb_operation, nfs_compound::specs::Callbacks::cb_arg, file_ops::specs::Callbacks::cb_seq))]
fn sequence_op(alloc: Global, at: SlotUse) -> CbOp
    ensures is { result ≡ sequence_op at }
    ensures fits { cb_operation.Fits result }
{
    let session = at.session;
    CbOp::Sequence(CbSeq {
        session,
        sequence: at.number,
        slot: at.slot,
        highest_slot: HIGHEST_SLOT,
        cache_this: false,
        referring: Items::new(alloc),
    })
}

#[tactic(auto, unfolding(nfs_compound::specs::Callbacks::cb_operation, nfs_compound::specs::Callbacks::cb_arg, copy_ops::specs::Forms::cb_offload))]
fn offload_op(told: &Ended) -> CbOp
    ensures is { result ≡ offload_op told.now }
    ensures fits { cb_operation.Fits result }
{
    let file = told.file;
    let _bytes = file.as_slice();
    CbOp::Offload(CbOffload {
        handle: file,
        id: id_told(told.id),
        end: end_told(told.end),
    })
}

/// A stateid, which has a spelling.
#[tactic(auto, unfolding(nfs_base::specs::Forms::state_id))]
fn id_told(id: StateId) -> StateId
    ensures is { result ≡ id }
    ensures fits { state_id.Fits result }
{
    id
}

/// How a copy ended, so that it has a spelling.
#[tactic(auto, unfolding(copy_ops::specs::Forms::offload_end))]
fn end_told(end: OffloadEnd) -> OffloadEnd
    ensures is { result ≡ end_told end }
    ensures fits { offload_end.Fits result }
{
    match end {
        OffloadEnd::Done(response) => OffloadEnd::Done(response_told(response)),
        OffloadEnd::Failed { status, count } => OffloadEnd::Failed {
            status: failure(status),
            count,
        },
    }
}

/// A status other than 0.
fn failure(status: Status) -> Status
    ensures is { result ≡ failure status }
    ensures failed { result.number ≢ 0 }
    ensures small { result.number < 2 ^ 32 }
{
    if status.number == 0 {
        Status::SERVERFAULT
    } else {
        status
    }
}

/// What a copy has written, which has a spelling.
#[tactic(auto, using(crate::proofs::Fitting::stability_fits), unfolding(nfs_base::specs::Forms::write_response))]
fn response_told(response: WriteResponse) -> WriteResponse
    ensures is { result ≡ response }
    ensures fits { write_response.Fits result }
{
    let verifier = response.verifier;
    WriteResponse {
        callback_id: callback_told(response.callback_id),
        count: response.count,
        committed: response.committed,
        verifier,
    }
}

fn callback_told(id: Option<StateId>) -> Option<StateId>
    ensures is { result ≡ id }
    ensures fits { IfSome result (λ id. state_id.Fits id) }
{
    match id {
        None => None,
        Some(id) => Some(id_told(id)),
    }
}

/// Whether a reply says that all of the compound was done.
pub(crate) fn is_done(reply: &CbReply) -> bool
    ensures { result ≡ is_done reply.now }
{
    reply.status.number == 0 && are_done(reply.results.as_slice())
}

fn are_done(results: &[CbRes]) -> bool
    ensures { result ≡ are_done results.now }
{
    match results {
        [first, second] => is_sequence(first) && is_offload(second),
        _ => false,
    }
}

fn is_sequence(res: &CbRes) -> bool
    ensures { result ≡ is_sequence res.now }
{
    match res {
        CbRes::Sequence(answer) => answer.status().number == 0,
        CbRes::Offload(_) => false,
        CbRes::Bare { .. } => false,
    }
}

fn is_offload(res: &CbRes) -> bool
    ensures { result ≡ is_offload res.now }
{
    match res {
        CbRes::Sequence(_) => false,
        CbRes::Offload(status) => status.number == 0,
        CbRes::Bare { .. } => false,
    }
}
