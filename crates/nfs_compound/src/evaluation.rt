//! The evaluation of a compound's operations in order.

ghost use Rattle.std.specs.Prelude.{◌≡◌, ◌≤◌, ◌<◌, ◌+◌, ◌^◌, ℕ, Bool, false, List, Option, [], ◌∷◌, length, drop, vec_len, vec_capacity, IsOk, IfOk, OnErr, MatchOption};
ghost use Rattle.std.specs.List.{AllByRecursion};
ghost use Rattle.nfs_compound.specs.Compounds.{IsCompound};
ghost use Rattle.nfs_compound.specs.Ops.{op_number};
ghost use Rattle.nfs_compound.specs.Results.{res_number, outcome, reply};
ghost use Rattle.nfs_compound.specs.Walk.{next_number, nothing_held, last_status, AnswersTail, Walks, BreaksOff};

use crate::compound::Compound;
use crate::held::Held;
use crate::op::Op;
use crate::reply::Reply;
use crate::res::Res;
use crate::tail::Tail;
use file_ops::OP_ILLEGAL;
use nfs_base::Status;
use outcome::Mem;
use std::alloc::Global;
use wire_xdr::Items;

/// Evaluates operations one at a time, for [`walk`].
pub trait Actor {
    ghost use Rattle.nfs_compound.specs.declared.held.Held.{Held};
    ghost use Rattle.nfs_compound.specs.declared.op.Op.{Op};
    ghost use Rattle.nfs_compound.specs.declared.res.Res.{Res};

    // Whether an actor may answer an operation so: the actor before it, the operation, the number of the one
    // behind it, what is held before it, the result, what is held after it, and the actor after it.
    ghost acts: { Self → Op → Option ℕ → Held → Res → Held → Self → Type 0 };

    // Whether an answer may want memory.
    ghost wants_memory: { Bool };

    /// The result of an operation. `next` is the number of the operation behind it, where one was read, and
    /// `held` what the operations before it left. The result stands under the operation's number. Without memory
    /// the actor is as before; only one that may want memory is ever without it.
    fn act(&mut self, alloc: Global, op: &Op, next: Option<u32>, held: &mut Held) -> Mem<Res>
        ensures acted { IfOk result (λ res. acts self.old op.now next held.old res held.new self.new) }
        ensures fits { IfOk result outcome.Fits }
        ensures number { IfOk result (λ res. res_number res ≡ op_number op.now) }
        ensures err { OnErr result (self.new ≡ self.old) }
        ensures succeeds { wants_memory ≡ false → IsOk result };
}

/// Evaluates the operations of a compound in order, each with what those before it left, and stops at the first
/// status other than 0. Where all that were read are answered with status 0, the one behind them that can't be
/// read or isn't served is answered too. The reply's status is that of the last result, and 0 where there is
/// none. The minor version and the number of operations aren't looked at. The reply to a compound that was read
/// may be written. Room for the tag and for all results is taken first: without memory the actor is as after
/// some operations at the front, and as before where no answer of it may want memory.
pub fn walk<A: Actor>(alloc: Global, compound: &Compound, actor: &mut A) -> Mem<Reply>
    ensures walks { IfOk result (λ reply. Walks A.acts compound.now.tail actor.old nothing_held compound.now.ops reply.results actor.new) }
    ensures status { IfOk result (λ reply. reply.status ≡ last_status reply.results) }
    ensures tag { IfOk result (λ reply. reply.tag ≡ compound.now.tag) }
    ensures count { IfOk result (λ reply. length reply.results ≤ length compound.now.ops + 1) }
    ensures fits { IfOk result (λ reply. AllByRecursion outcome.Fits reply.results) }
    ensures written { (bytes : List ℕ) → IsCompound compound.now bytes → IfOk result reply.Fits }
    ensures err { OnErr result (BreaksOff A.acts actor.old nothing_held compound.now.ops actor.new) }
    ensures kept { A.wants_memory ≡ false → OnErr result (actor.new ≡ actor.old) }
{
    let tag = compound.tag.copy()?;
    let room = Vec::with_capacity(alloc, compound.ops.as_slice().len() + 1)?;
    let (status, results) = evaluate(alloc, compound, room, actor)?;
    Ok(Reply {
        status,
        tag,
        results,
    })
}

/// The results of a compound's operations, and the status of the last one. There is room for one result more
/// than there are operations.
#[tactic(auto, using(crate::proofs::Walking::breaks))]
fn evaluate<A: Actor>(
    alloc: Global,
    compound: &Compound,
    mut results: Vec<Res>,
    actor: &mut A,
) -> Mem<(Status, Items<Res>)>
    requires empty { results.items ≡ [] }
    requires none { vec_len results ≡ 0 }
    requires room { length compound.now.ops < vec_capacity results }
    ensures walks { IfOk result (λ answer. Walks A.acts compound.now.tail actor.old nothing_held compound.now.ops answer.1 actor.new) }
    ensures status { IfOk result (λ answer. answer.0 ≡ last_status answer.1) }
    ensures number { IfOk result (λ answer. answer.0.number < 2 ^ 32) }
    ensures fits { IfOk result (λ answer. AllByRecursion outcome.Fits answer.1) }
    ensures err { OnErr result (BreaksOff A.acts actor.old nothing_held compound.now.ops actor.new) }
    ensures kept { A.wants_memory ≡ false → OnErr result (actor.new ≡ actor.old) }
{
    let ops = compound.ops.as_slice();
    let mut held = Held {
        current: None,
        saved: None,
        id: None,
        saved_id: None,
    };
    for place in 0..ops.len() {
        let next = number_at(ops, place + 1);
        let res = actor.act(alloc, &ops[place], next, &mut held)?;
        let status = res.status();
        results.push_reserved(res);
        if status.number != 0 {
            return Ok((status, Items::from_vec(results)));
        }
    }
    match tail_answer(compound.tail) {
        Some(res) => {
            let status = res.status();
            results.push_reserved(res);
            Ok((status, Items::from_vec(results)))
        }
        None => Ok((Status::OK, Items::from_vec(results))),
    }
}

/// The number of the operation at a place, where there is one.
fn number_at(ops: &[Op], place: usize) -> Option<u32>
    requires { place ≤ length ops.now }
    ensures { result ≡ next_number (drop place ops.now) }
{
    first_number(&ops[place..])
}

/// The number of the operation that stands first.
fn first_number(ops: &[Op]) -> Option<u32>
    ensures { result ≡ next_number ops.now }
{
    match ops {
        [] => None,
        [op, ..] => Some(op.number()),
    }
}

/// What answers the operation at which the reading ended.
fn tail_answer(tail: Tail) -> Option<Res>
    ensures { MatchOption result (AnswersTail tail []) (λ res. AnswersTail tail (res ∷ [])) }
{
    match tail {
        Tail::Whole => None,
        Tail::Unreadable { op, .. } => Some(Res::refused(op, Status::BADXDR)),
        Tail::Unsupported { op, .. } => Some(Res::refused(op, Status::NOTSUPP)),
        Tail::Illegal { .. } => Some(Res::refused(OP_ILLEGAL, Status::OP_ILLEGAL)),
    }
}
