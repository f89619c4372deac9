//! Operations with the memory that they want.

ghost use Rattle.std.specs.Prelude.{◌≡◌, map, length, IfOk};
ghost use Rattle.nfs_compound.specs.Ops.{op_number};
ghost use Rattle.compound_server.specs.Preparing.{op_of, IsSuited, AreSuited};

use crate::serving::Serving;
use copy_ops::CopyArg;
use file_ops::FileArg;
use nfs_compound::Op;
use outcome::Mem;
use std::alloc::Global;
use std::collections::VecDeque;
use std::marker::Model;

/// An operation, one of a copy with the memory that it wants.
#[derive(Drop)]
pub enum Prepared<R> {
    File(FileArg),
    Copy { op: CopyArg, room: R },
}

impl<R> Prepared<R> {
    /// The operation's number.
    pub fn number(&self) -> u32
        ensures { result ≡ op_number (op_of self.now) }
    {
        match self {
            Prepared::File(arg) => arg.number(),
            Prepared::Copy { op, .. } => op.number(),
        }
    }
}

/// The operations of a compound behind its SEQUENCE, in order.
#[derive(Drop)]
pub struct PreparedOps<R> {
    ops: VecDeque<Prepared<R>>,
}

impl<R> Model for PreparedOps<R> {
    ghost use Rattle.std.specs.Prelude.{List};
    ghost use Rattle.compound_server.specs.declared.preparing.Prepared.{Prepared};

    ghost Value = { List (Prepared R) };

    ghost view = { λ p. p.ops.items };
}

impl<R> PreparedOps<R> {
    pub(crate) fn into_deque(self) -> VecDeque<Prepared<R>>
        ensures { result.items ≡ self }
    {
        let PreparedOps { ops } = self;
        ops
    }
}

/// Takes the memory that the operations of a compound want, by what the caller's context carries.
pub fn prepare<C, X: Serving<C>>(
    alloc: Global,
    extra: &X,
    carry: &Option<C>,
    ops: Vec<Op>,
) -> Mem<PreparedOps<X::Room>>
    ensures ops { IfOk result (λ prepared. map op_of prepared ≡ ops.items) }
    ensures suited { IfOk result (λ prepared. AreSuited X.suits carry.now prepared) }
{
    let mut prepared = VecDeque::with_capacity(alloc, ops.len())?;
    for op in ops {
        prepared.push_back(prepare_one(alloc, extra, carry, op)?)?;
    }
    Ok(PreparedOps { ops: prepared })
}

fn prepare_one<C, X: Serving<C>>(
    alloc: Global,
    extra: &X,
    carry: &Option<C>,
    op: Op,
) -> Mem<Prepared<X::Room>>
    ensures op { IfOk result (λ one. op_of one ≡ op) }
    ensures suited { IfOk result (λ one. IsSuited X.suits carry.now one) }
{
    match op {
        Op::File(arg) => Ok(Prepared::File(arg)),
        Op::Copy(op) => {
            let room = extra.room(alloc, carry, &op)?;
            Ok(Prepared::Copy { op, room })
        }
    }
}
