//! A compound of these ends: no tag, and minor version 2.

ghost use Rattle.std.specs.Prelude.{◌≡◌, ◌≤◌, ◌∷◌, [], length, sum_by, IfOk};
ghost use Rattle.std.specs.List.{AllByRecursion};
ghost use Rattle.nfs_compound.specs.Ops.{operation};
ghost use Rattle.nfs_compound.specs.CallLengthLaws.{op_size};
ghost use Rattle.session_calls.specs.Calls.{whole, IsSendable};

use file_ops::FileArg;
use nfs_base::MOST_OPERATIONS;
use nfs_compound::{Compound, MINOR_VERSION, Op, Tail, compounds_have_lengths};
use outcome::Mem;
use std::alloc::Global;
use wire_xdr::{Items, Octets};

/// No compound of these ends has so many bytes: sealed, with its head, it is no longer than a record may be.
pub const LONGEST_CALL: u32 = 73_200;

/// How many bytes its operations have at most.
const OPERATIONS_SIZE: u32 = 72_000;

/// The compound of these operations.
pub(crate) fn whole(alloc: Global, ops: Items<Op>) -> Compound
    requires few { length ops ≤ MOST_OPERATIONS }
    requires fits { AllByRecursion operation.Fits ops }
    requires size { sum_by op_size ops ≤ OPERATIONS_SIZE }
    ensures is { result ≡ whole ops }
    ensures sendable { IsSendable result }
{
    compounds_have_lengths();
    let count = ops.len() as u32;
    Compound {
        tag: Octets::from_vec(Vec::new(alloc)),
        minor: MINOR_VERSION,
        count,
        ops,
        tail: Tail::Whole,
    }
}

/// The compound of one operation.
pub(crate) fn of_one(alloc: Global, op: Op) -> Mem<Compound>
    requires fits { operation.Fits op }
    requires size { op_size op ≤ OPERATIONS_SIZE }
    ensures is { IfOk result (λ c. c ≡ whole (op ∷ [])) }
    ensures sendable { IfOk result (λ c. IsSendable c) }
{
    let mut ops = Items::new(alloc);
    ops.push(op)?;
    Ok(whole(alloc, ops))
}
