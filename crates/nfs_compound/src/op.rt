//! The operations of a COMPOUND.

ghost use Rattle.std.specs.Prelude.{◌≡◌};
ghost use Rattle.nfs_compound.specs.OpNames.{op_name};
ghost use Rattle.nfs_compound.specs.Ops.{op_class, op_number, op_is_cut, op_arg, op_own, operation};

use crate::operation::{Class, Operation};
use copy_ops::{
    CopyArg, OP_CLONE, OP_COPY, OP_COPY_NOTIFY, OP_OFFLOAD_CANCEL, OP_OFFLOAD_STATUS, is_copy_op,
};
use file_ops::{FileArg, file_op_name, is_file_op};
use outcome::Mem;
use std::alloc::Global;
use wire_xdr::{ReadError, Reader, Writer, Xdr, XdrBy};

/// The lowest number of an operation of the protocol (RFC 8881 section 16.2.1, ACCESS).
const FIRST_OP: u32 = 3;

/// The highest number of an operation of the protocol (RFC 7862 section 13, CLONE).
const LAST_OP: u32 = 71;

/// An operation of a COMPOUND and its arguments (RFC 8881 section 16.2, RFC 7862 section 15).
#[derive(Drop)]
pub enum Op {
    Copy(CopyArg),
    File(FileArg),
}

impl Op {
    /// The operation's number.
    pub fn number(&self) -> u32
        ensures { result ≡ op_number self.now }
    {
        match self {
            Op::Copy(arg) => arg.number(),
            Op::File(arg) => arg.number(),
        }
    }

    /// The operation's name, in capitals.
    pub fn name(&self) -> &'static str
        ensures { result.now ≡ op_name (op_number self.now) }
    {
        name_of(self.number())
    }
}

/// The name of the operation with a number, in capitals. It is empty where none that is served has the
/// number.
pub fn name_of(op: u32) -> &'static str
    ensures { result.now ≡ op_name op }
{
    match op {
        OP_COPY => "COPY",
        OP_COPY_NOTIFY => "COPY_NOTIFY",
        OP_OFFLOAD_CANCEL => "OFFLOAD_CANCEL",
        OP_OFFLOAD_STATUS => "OFFLOAD_STATUS",
        OP_CLONE => "CLONE",
        _ => file_op_name(op),
    }
}

impl XdrBy for Op {
    ghost form = { op_arg };

    ghost number_of = { op_number };

    #[tactic(auto, unfolding(crate::specs::Ops::op_arg))]
    fn parse_by(alloc: Global, number: u32, reader: &mut Reader) -> Result<Op, ReadError> {
        if is_copy_op(number) {
            return Ok(Op::Copy(CopyArg::parse_by(alloc, number, reader)?));
        }
        if is_file_op(number) {
            return Ok(Op::File(FileArg::parse_by(alloc, number, reader)?));
        }
        Err(ReadError::at(reader.at()))
    }

    #[tactic(auto, unfolding(crate::specs::Ops::op_arg))]
    fn put_by(&self, writer: &mut Writer) -> Mem<()> {
        match self {
            Op::Copy(arg) => arg.put_by(writer),
            Op::File(arg) => arg.put_by(writer),
        }
    }

    ghost own = { op_own };
}

impl Xdr for Op {
    ghost form = { operation };

    #[tactic(auto, unfolding(crate::specs::Ops::operation))]
    fn parse(alloc: Global, reader: &mut Reader) -> Result<Op, ReadError> {
        let number = u32::parse(alloc, reader)?;
        Op::parse_by(alloc, number, reader)
    }

    #[tactic(auto, unfolding(crate::specs::Ops::operation))]
    fn put(&self, writer: &mut Writer) -> Mem<()> {
        self.number().put(writer)?;
        self.put_by(writer)
    }
}

impl Operation for Op {
    ghost class = { op_class };

    ghost is_cut = { op_is_cut };

    fn class_of(op: u32) -> Class {
        if is_copy_op(op) || is_file_op(op) {
            return Class::Listed;
        }
        if op < FIRST_OP || op > LAST_OP {
            return Class::Illegal;
        }
        Class::Unsupported
    }

    fn cuts(&self) -> bool {
        match self {
            Op::Copy(_) => false,
            Op::File(arg) => arg.is_cut(),
        }
    }
}
