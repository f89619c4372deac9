//! The common types, each by a call of its own.

ghost use Rattle.std.specs.Prelude.{◌≡◌, OnOk, OnErr};
ghost use Rattle.wire_xdr.specs.Cursor.{Appends};
ghost use Rattle.wire_xdr.specs.Reads.{IsRead};
ghost use Rattle.nfs_base.specs.Forms.{status, state_id, handle, net_loc, time};

use crate::{Handle, NetLoc, StateId, Status, Time};
use outcome::Mem;
use std::alloc::Global;
use wire_xdr::{BadXdr, Reader, Writer, read, write};

/// Reads a status, exactly where the bytes begin with one; the reader otherwise stands where it stood.
pub fn read_status(alloc: Global, reader: &mut Reader) -> Mem<Result<Status, BadXdr>>
    ensures { IsRead status result reader.old reader.new }
{
    read(alloc, reader)
}

/// Writes a status. Without memory the writer is as it was.
pub fn write_status(alloc: Global, writer: &mut Writer, value: &Status) -> Mem<()>
    requires { status.Fits value.now }
    ensures ok { OnOk result (Appends writer.old (status.spell value.now) writer.new) }
    ensures err { OnErr result (writer.new ≡ writer.old) }
{
    write(alloc, writer, value)
}

/// Reads a stateid, exactly where the bytes begin with one; the reader otherwise stands where it stood.
pub fn read_state_id(alloc: Global, reader: &mut Reader) -> Mem<Result<StateId, BadXdr>>
    ensures { IsRead state_id result reader.old reader.new }
{
    read(alloc, reader)
}

/// Writes a stateid. Without memory the writer is as it was.
pub fn write_state_id(alloc: Global, writer: &mut Writer, value: &StateId) -> Mem<()>
    requires { state_id.Fits value.now }
    ensures ok { OnOk result (Appends writer.old (state_id.spell value.now) writer.new) }
    ensures err { OnErr result (writer.new ≡ writer.old) }
{
    write(alloc, writer, value)
}

/// Reads a handle, exactly where the bytes begin with one; the reader otherwise stands where it stood.
pub fn read_handle(alloc: Global, reader: &mut Reader) -> Mem<Result<Handle, BadXdr>>
    ensures { IsRead handle result reader.old reader.new }
{
    read(alloc, reader)
}

/// Writes a handle. Without memory the writer is as it was.
pub fn write_handle(alloc: Global, writer: &mut Writer, value: &Handle) -> Mem<()>
    ensures ok { OnOk result (Appends writer.old (handle.spell value.now) writer.new) }
    ensures err { OnErr result (writer.new ≡ writer.old) }
{
    let _bytes = value.as_slice();
    write(alloc, writer, value)
}

/// Reads a network location, exactly where the bytes begin with one; the reader otherwise stands where it
/// stood.
pub fn read_net_loc(alloc: Global, reader: &mut Reader) -> Mem<Result<NetLoc, BadXdr>>
    ensures { IsRead net_loc result reader.old reader.new }
{
    read(alloc, reader)
}

/// Writes a network location. Without memory the writer is as it was.
pub fn write_net_loc(alloc: Global, writer: &mut Writer, value: &NetLoc) -> Mem<()>
    requires { net_loc.Fits value.now }
    ensures ok { OnOk result (Appends writer.old (net_loc.spell value.now) writer.new) }
    ensures err { OnErr result (writer.new ≡ writer.old) }
{
    write(alloc, writer, value)
}

/// Reads a time, exactly where the bytes begin with one; the reader otherwise stands where it stood.
pub fn read_time(alloc: Global, reader: &mut Reader) -> Mem<Result<Time, BadXdr>>
    ensures { IsRead time result reader.old reader.new }
{
    read(alloc, reader)
}

/// Writes a time. Without memory the writer is as it was.
pub fn write_time(alloc: Global, writer: &mut Writer, value: &Time) -> Mem<()>
    requires { time.Fits value.now }
    ensures ok { OnOk result (Appends writer.old (time.spell value.now) writer.new) }
    ensures err { OnErr result (writer.new ≡ writer.old) }
{
    write(alloc, writer, value)
}
