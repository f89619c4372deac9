//! Reading and writing arguments and results by the operation's number, and CB_OFFLOAD.

ghost use Rattle.std.specs.Prelude.{◌≡◌, OnOk, OnErr};
ghost use Rattle.wire_xdr.specs.Cursor.{Appends};
ghost use Rattle.wire_xdr.specs.Reads.{IsRead, HasNumber};
ghost use Rattle.copy_ops.specs.Forms.{copy_arg, copy_arg_number, copy_res, copy_res_number, cb_offload};
ghost use Rattle.copy_ops.specs.Operations.{IsCopyOp};

use crate::{CbOffload, CopyArg, CopyRes};
use outcome::Mem;
use std::alloc::Global;
use wire_xdr::{BadXdr, Reader, Writer, read, read_by, write, write_by};

/// Reads the arguments of an operation, which stand behind its number. They are read exactly where the
/// bytes begin with their spelling; a refusal names the first place that fails, and the reader then
/// stands where it stood, as without memory.
pub fn read_copy_op(alloc: Global, op: u32, reader: &mut Reader) -> Mem<Result<CopyArg, BadXdr>>
    requires { IsCopyOp op }
    ensures read { IsRead (copy_arg op) result reader.old reader.new }
    ensures own { HasNumber copy_arg_number op result }
{
    read_by(alloc, op, reader)
}

/// Writes the arguments of an operation, without its number. Without memory the writer is as it was.
pub fn write_copy_op(alloc: Global, writer: &mut Writer, value: &CopyArg) -> Mem<()>
    requires { (copy_arg (copy_arg_number value.now)).Fits value.now }
    ensures ok { OnOk result (Appends writer.old ((copy_arg (copy_arg_number value.now)).spell value.now) writer.new) }
    ensures err { OnErr result (writer.new ≡ writer.old) }
{
    write_by(alloc, writer, value)
}

/// Reads the result of an operation, from its status on. It is read exactly where the bytes begin with its
/// spelling; a refusal names the first place that fails, and the reader then stands where it stood, as
/// without memory.
pub fn read_copy_res(alloc: Global, op: u32, reader: &mut Reader) -> Mem<Result<CopyRes, BadXdr>>
    requires { IsCopyOp op }
    ensures read { IsRead (copy_res op) result reader.old reader.new }
    ensures own { HasNumber copy_res_number op result }
{
    read_by(alloc, op, reader)
}

/// Writes the result of an operation, from its status on. Without memory the writer is as it was.
pub fn write_copy_res(alloc: Global, writer: &mut Writer, value: &CopyRes) -> Mem<()>
    requires { (copy_res (copy_res_number value.now)).Fits value.now }
    ensures ok { OnOk result (Appends writer.old ((copy_res (copy_res_number value.now)).spell value.now) writer.new) }
    ensures err { OnErr result (writer.new ≡ writer.old) }
{
    write_by(alloc, writer, value)
}

/// Reads the arguments of CB_OFFLOAD, which stand behind its number. They are read exactly where the bytes
/// begin with their spelling; a refusal names the first place that fails, and the reader then stands where
/// it stood, as without memory.
pub fn read_cb_offload(alloc: Global, reader: &mut Reader) -> Mem<Result<CbOffload, BadXdr>>
    ensures { IsRead cb_offload result reader.old reader.new }
{
    read(alloc, reader)
}

/// Writes the arguments of CB_OFFLOAD. Without memory the writer is as it was.
pub fn write_cb_offload(alloc: Global, writer: &mut Writer, value: &CbOffload) -> Mem<()>
    requires { cb_offload.Fits value.now }
    ensures ok { OnOk result (Appends writer.old (cb_offload.spell value.now) writer.new) }
    ensures err { OnErr result (writer.new ≡ writer.old) }
{
    write(alloc, writer, value)
}
