//! The operations of a CB_COMPOUND.

ghost use Rattle.std.specs.Prelude.{◌≡◌};
ghost use Rattle.nfs_compound.specs.OpNames.{cb_op_name};
ghost use Rattle.nfs_compound.specs.Callbacks.{cb_class, cb_is_cut, cb_arg, cb_op_number, cb_op_own, cb_operation};

use crate::operation::{Class, Operation};
use copy_ops::{CbOffload, OP_CB_OFFLOAD};
use file_ops::{CbSeq, OP_CB_SEQUENCE};
use outcome::Mem;
use std::alloc::Global;
use wire_xdr::{ReadError, Reader, Writer, Xdr, XdrBy};

/// The lowest number of an operation of callbacks (RFC 8881 section 20, CB_GETATTR).
const FIRST_OP: u32 = 3;

/// The highest number of an operation of callbacks (RFC 7862 section 16.1, CB_OFFLOAD).
const LAST_OP: u32 = 15;

/// An operation of a CB_COMPOUND and its arguments (RFC 8881 section 20, RFC 7862 section 16).
#[derive(Drop)]
pub enum CbOp {
    Sequence(CbSeq),
    Offload(CbOffload),
}

impl CbOp {
    /// The operation's number.
    pub fn number(&self) -> u32
        ensures { result ≡ cb_op_number self.now }
    {
        match self {
            CbOp::Sequence(_) => OP_CB_SEQUENCE,
            CbOp::Offload(_) => OP_CB_OFFLOAD,
        }
    }

    /// The operation's name, in capitals.
    pub fn name(&self) -> &'static str
        ensures { result.now ≡ cb_op_name (cb_op_number self.now) }
    {
        cb_name_of(self.number())
    }
}

/// The name of the operation of a CB_COMPOUND with a number, in capitals. It is empty where none that is served
/// has the number.
pub fn cb_name_of(op: u32) -> &'static str
    ensures { result.now ≡ cb_op_name op }
{
    match op {
        OP_CB_SEQUENCE => "CB_SEQUENCE",
        OP_CB_OFFLOAD => "CB_OFFLOAD",
        _ => "",
    }
}

impl XdrBy for CbOp {
    ghost form = { cb_arg };

    ghost number_of = { cb_op_number };

    #[tactic(auto, unfolding(crate::specs::Callbacks::cb_arg))]
    fn parse_by(alloc: Global, number: u32, reader: &mut Reader) -> Result<CbOp, ReadError> {
        match number {
            OP_CB_SEQUENCE => Ok(CbOp::Sequence(CbSeq::parse(alloc, reader)?)),
            OP_CB_OFFLOAD => Ok(CbOp::Offload(CbOffload::parse(alloc, reader)?)),
            _ => Err(ReadError::at(reader.at())),
        }
    }

    #[tactic(auto, unfolding(crate::specs::Callbacks::cb_arg))]
    fn put_by(&self, writer: &mut Writer) -> Mem<()> {
        match self {
            CbOp::Sequence(arg) => arg.put(writer),
            CbOp::Offload(arg) => arg.put(writer),
        }
    }

    ghost own = { cb_op_own };
}

impl Xdr for CbOp {
    ghost form = { cb_operation };

    #[tactic(auto, unfolding(crate::specs::Callbacks::cb_operation))]
    fn parse(alloc: Global, reader: &mut Reader) -> Result<CbOp, ReadError> {
        let number = u32::parse(alloc, reader)?;
        CbOp::parse_by(alloc, number, reader)
    }

    #[tactic(auto, unfolding(crate::specs::Callbacks::cb_operation))]
    fn put(&self, writer: &mut Writer) -> Mem<()> {
        self.number().put(writer)?;
        self.put_by(writer)
    }
}

impl Operation for CbOp {
    ghost class = { cb_class };

    ghost is_cut = { cb_is_cut };

    fn class_of(op: u32) -> Class {
        if op == OP_CB_SEQUENCE || op == OP_CB_OFFLOAD {
            return Class::Listed;
        }
        if op < FIRST_OP || op > LAST_OP {
            return Class::Illegal;
        }
        Class::Unsupported
    }

    fn cuts(&self) -> bool {
        false
    }
}
