//! The evaluation of a CB_COMPOUND.

ghost use Rattle.std.specs.Prelude.{◌≡◌, ◌==◌, ◌+◌, ◌≤◌, ◌++◌, ◌∷◌, [], length, option_to_list, IfOk, OnErr, None, vec_len, vec_capacity};
ghost use Rattle.callbacks.specs.Callbacks as callbacks;
ghost use Rattle.client_copies.specs.Table.{Copies};
ghost use Rattle.nfs_base.specs.declared.answer.Answer.TheVariants.{Refused};
ghost use Rattle.nfs_compound.specs.declared.cb_res.CbRes.TheVariants.{Sequence, Offload};

use client_copies::{CopyTable, Named, Said};
use copy_ops::{CbOffload, OP_CB_OFFLOAD};
use file_ops::{CbSeq, CbSeqDone, OP_CB_SEQUENCE, OP_ILLEGAL};
use nfs_base::{Answer, MOST_OPERATIONS, SLOTS, Status};
use nfs_compound::{CbCompound, CbOp, CbRes, MINOR_VERSION, Tail};
use outcome::Mem;
use std::alloc::Global;
use wire_xdr::Items;

/// The highest slot that a server may use.
const HIGHEST_SLOT: u32 = SLOTS - 1;

/// What is told of the copy with a number.
#[derive(Clone, Copy)]
pub struct Told {
    pub copy: u32,
    pub said: Said,
}

/// What a CB_COMPOUND is answered by: its status and its results; and what is told of copies.
#[derive(Drop)]
pub struct Answered {
    pub status: Status,
    pub results: Items<CbRes>,
    pub told: Items<Told>,
}

/// One operation, answered.
#[derive(Drop)]
struct One {
    status: Status,
    res: CbRes,
    told: Option<Told>,
}

/// Evaluates a CB_COMPOUND of the context whose session this is, none where it has none. Without memory nothing changes.
pub fn evaluate(
    alloc: Global,
    copies: &mut CopyTable,
    session: Option<[u8; 16]>,
    compound: &CbCompound,
) -> Mem<Answered>
    ensures status { IfOk result (λ a. a.status ≡ (callbacks.evaluated session compound.now copies.old).status) }
    ensures results { IfOk result (λ a. a.results ≡ (callbacks.evaluated session compound.now copies.old).results) }
    ensures told { IfOk result (λ a. a.told ≡ (callbacks.evaluated session compound.now copies.old).told) }
    ensures after { IfOk result (λ a. copies.new ≡ (callbacks.evaluated session compound.now copies.old).copies) }
    ensures err { OnErr result (copies.new ≡ copies.old) }
{
    let ops = compound.ops.as_slice();
    let mut results = Vec::with_capacity(alloc, ops.len().saturating_add(1))?;
    let mut told = Vec::with_capacity(alloc, ops.len())?;
    let status = answer(&mut results, &mut told, copies, session, compound);
    Ok(Answered {
        status,
        results: Items::from_vec(results),
        told: Items::from_vec(told),
    })
}

/// Answers a CB_COMPOUND, for whose results there is room.
fn answer(
    results: &mut Vec<CbRes>,
    told: &mut Vec<Told>,
    copies: &mut CopyTable,
    session: Option<[u8; 16]>,
    compound: &CbCompound,
) -> Status
    requires results { vec_len results.old + length compound.now.ops + 1 ≤ vec_capacity results.old }
    requires told { vec_len told.old + length compound.now.ops ≤ vec_capacity told.old }
    ensures status { result ≡ (callbacks.evaluated session compound.now copies.old).status }
    ensures results { results.new.items ≡ results.old.items ++ (callbacks.evaluated session compound.now copies.old).results }
    ensures told { told.new.items ≡ told.old.items ++ (callbacks.evaluated session compound.now copies.old).told }
    ensures after { copies.new ≡ (callbacks.evaluated session compound.now copies.old).copies }
{
    if compound.minor != MINOR_VERSION {
        return Status::MINOR_VERS_MISMATCH;
    }
    let ops = compound.ops.as_slice();
    if compound.count > MOST_OPERATIONS {
        let op = first_number(ops, &compound.tail);
        results.push(refused_res(op, Status::TOO_MANY_OPS)).unwrap();
        return Status::TOO_MANY_OPS;
    }
    walk(results, told, copies, session, true, ops, &compound.tail)
}

/// Answers operations in order, and then what couldn't be read.
fn walk(
    results: &mut Vec<CbRes>,
    told: &mut Vec<Told>,
    copies: &mut CopyTable,
    session: Option<[u8; 16]>,
    first: bool,
    ops: &[CbOp],
    tail: &Tail,
) -> Status
    requires results { vec_len results.old + length ops.now + 1 ≤ vec_capacity results.old }
    requires told { vec_len told.old + length ops.now ≤ vec_capacity told.old }
    ensures status { result ≡ (callbacks.walked session first ops.now tail.now copies.old).status }
    ensures results { results.new.items ≡ results.old.items ++ (callbacks.walked session first ops.now tail.now copies.old).results }
    ensures told { told.new.items ≡ told.old.items ++ (callbacks.walked session first ops.now tail.now copies.old).told }
    ensures after { copies.new ≡ (callbacks.walked session first ops.now tail.now copies.old).copies }
{
    match ops {
        [] => answer_tail(results, tail),
        [op, more @ ..] => {
            let one = answer_op(copies, session, first, op);
            let status = put(results, told, one);
            if status.number != 0 {
                return status;
            }
            walk(results, told, copies, session, false, more, tail)
        }
    }
}

/// Adds an operation's answer, for which there is room.
fn put(results: &mut Vec<CbRes>, told: &mut Vec<Told>, one: One) -> Status
    requires results { vec_len results.old + 1 ≤ vec_capacity results.old }
    requires told { vec_len told.old + 1 ≤ vec_capacity told.old }
    ensures status { result ≡ one.status }
    ensures results { results.new.items ≡ results.old.items ++ one.res ∷ [] }
    ensures told { told.new.items ≡ told.old.items ++ option_to_list one.told }
    ensures results_len { vec_len results.new ≡ vec_len results.old + 1 }
    ensures told_len { vec_len told.new ≤ vec_len told.old + 1 }
    ensures results_room { vec_capacity results.old ≤ vec_capacity results.new }
    ensures told_room { vec_capacity told.old ≤ vec_capacity told.new }
{
    let One {
        status,
        res,
        told: says,
    } = one;
    results.push(res).unwrap();
    if let Some(says) = says {
        told.push(says).unwrap();
    }
    status
}

/// What couldn't be read, or isn't served.
fn answer_tail(results: &mut Vec<CbRes>, tail: &Tail) -> Status
    requires { vec_len results.old + 1 ≤ vec_capacity results.old }
    ensures status { (t : Copies) → result ≡ (callbacks.tail_outcome tail.now t).status }
    ensures results { (t : Copies) → results.new.items ≡ results.old.items ++ (callbacks.tail_outcome tail.now t).results }
{
    match tail {
        Tail::Whole => Status::OK,
        Tail::Unreadable { op, .. } => refuse(results, *op, Status::BADXDR),
        Tail::Unsupported { op, .. } => refuse(results, *op, Status::NOTSUPP),
        Tail::Illegal { .. } => refuse(results, OP_ILLEGAL, Status::OP_ILLEGAL),
    }
}

fn refuse(results: &mut Vec<CbRes>, op: u32, status: Status) -> Status
    requires { vec_len results.old + 1 ≤ vec_capacity results.old }
    ensures status { result ≡ status }
    ensures results { results.new.items ≡ results.old.items ++ (callbacks.refused_res op status) ∷ [] }
{
    results.push(refused_res(op, status)).unwrap();
    status
}

/// One operation.
fn answer_op(copies: &mut CopyTable, session: Option<[u8; 16]>, first: bool, op: &CbOp) -> One
    ensures status { result.status ≡ (callbacks.op_outcome session first op.now copies.old).status }
    ensures res { result.res ∷ [] ≡ (callbacks.op_outcome session first op.now copies.old).results }
    ensures told { option_to_list result.told ≡ (callbacks.op_outcome session first op.now copies.old).told }
    ensures after { copies.new ≡ (callbacks.op_outcome session first op.now copies.old).copies }
{
    match op {
        CbOp::Sequence(args) => answer_sequence(first, is_session(&args.session, session), args),
        CbOp::Offload(args) => answer_offload(copies, first, args),
    }
}

fn answer_sequence(first: bool, own: bool, args: &CbSeq) -> One
    ensures status { (t : Copies) → result.status ≡ (callbacks.sequence_by first own args.now t).status }
    ensures res { (t : Copies) → result.res ∷ [] ≡ (callbacks.sequence_by first own args.now t).results }
    ensures told { result.told ≡ None }
{
    if !first {
        return refused_sequence(Status::SEQUENCE_POS);
    }
    if !own {
        return refused_sequence(Status::BADSESSION);
    }
    let session = args.session;
    One {
        status: Status::OK,
        res: CbRes::Sequence(Answer::Done(CbSeqDone {
            session,
            sequence: args.sequence,
            slot: args.slot,
            highest_slot: HIGHEST_SLOT,
            target_highest_slot: HIGHEST_SLOT,
        })),
        told: None,
    }
}

fn refused_sequence(status: Status) -> One
    ensures { result ≡ record { status = status; res = Sequence (Refused status); told = None } }
{
    One {
        status,
        res: CbRes::Sequence(Answer::Refused(status)),
        told: None,
    }
}

/// Whether a session is that of the calling context.
fn is_session(session: &[u8; 16], own: Option<[u8; 16]>) -> bool
    ensures { result ≡ callbacks.is_session session.now own }
{
    match own {
        None => false,
        Some(own) => own == *session,
    }
}

fn answer_offload(copies: &mut CopyTable, first: bool, args: &CbOffload) -> One
    ensures status { result.status ≡ (callbacks.offload_by first args.now copies.old).status }
    ensures res { result.res ∷ [] ≡ (callbacks.offload_by first args.now copies.old).results }
    ensures told { option_to_list result.told ≡ (callbacks.offload_by first args.now copies.old).told }
    ensures after { copies.new ≡ (callbacks.offload_by first args.now copies.old).copies }
{
    if first {
        return offloaded(Status::OP_NOT_IN_SESSION, None);
    }
    match copies.offload(args.id, args.end) {
        Named::Copy(copy, said) => offloaded(Status::OK, Some(Told { copy, said })),
        Named::Held => offloaded(Status::OK, None),
        Named::Full => offloaded(Status::DELAY, None),
    }
}

fn offloaded(status: Status, told: Option<Told>) -> One
    ensures { result ≡ record { status = status; res = Offload status; told = told } }
{
    One {
        status,
        res: CbRes::Offload(status),
        told,
    }
}

/// The result of an operation that is refused, by its number.
fn refused_res(op: u32, status: Status) -> CbRes
    ensures { result ≡ callbacks.refused_res op status }
{
    if op == OP_CB_SEQUENCE {
        CbRes::Sequence(Answer::Refused(status))
    } else if op == OP_CB_OFFLOAD {
        CbRes::Offload(status)
    } else {
        CbRes::Bare { op, status }
    }
}

/// Under which number a compound is answered whose operations aren't evaluated.
fn first_number(ops: &[CbOp], tail: &Tail) -> u32
    ensures { result ≡ callbacks.first_number ops.now tail.now }
{
    match ops {
        [] => tail_number(tail),
        [op, ..] => op.number(),
    }
}

fn tail_number(tail: &Tail) -> u32
    ensures { result ≡ callbacks.tail_number tail.now }
{
    match tail {
        Tail::Whole | Tail::Illegal { .. } => OP_ILLEGAL,
        Tail::Unreadable { op, .. } | Tail::Unsupported { op, .. } => *op,
    }
}
