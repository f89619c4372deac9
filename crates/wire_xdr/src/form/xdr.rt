ghost use Rattle.std.specs.Prelude.{◌≡◌, ◌++◌, OnOk, OnErr};
ghost use Rattle.wire_xdr.specs.Cursor.{Appends};
ghost use Rattle.wire_xdr.specs.Form.{Form};
ghost use Rattle.wire_xdr.specs.Reads.{Reads, IsRead};

use crate::form::bad::{BadXdr, ReadError};
use crate::reader::Reader;
use crate::writer::Writer;
use outcome::{Mem, NoMemory};
use std::alloc::Global;

/// A type whose values are spelled by a form.
pub trait Xdr: Drop {
    ghost form: { Form Self };

    /// Reads a value from left to right. After an error the reader may stand anywhere: [`read`] is the
    /// call for a whole value.
    fn parse(alloc: Global, reader: &mut Reader) -> Result<Self, ReadError>
        ensures { Reads result reader.new (form.read reader.old) };

    /// Writes the value's spelling. Without memory a part of it may be written: [`write`] is the call for
    /// a whole value.
    fn put(&self, writer: &mut Writer) -> Mem<()>
        requires { form.Fits self.now }
        ensures { OnOk result (Appends writer.old (form.spell self.now) writer.new) };
}

/// Reads a value. It is read exactly where the bytes begin with its spelling; a refusal names the first
/// place that fails. After a refusal and without memory the reader stands where it stood.
pub fn read<T: Xdr>(alloc: Global, reader: &mut Reader) -> Mem<Result<T, BadXdr>>
    ensures { IsRead T.form result reader.old reader.new }
{
    let _rest = reader.rest();
    let mut next = reader.again();
    match T::parse(alloc, &mut next) {
        Ok(value) => {
            *reader = next;
            Ok(Ok(value))
        }
        Err(ReadError::Bad(bad)) => Ok(Err(bad)),
        Err(ReadError::Memory) => Err(NoMemory),
    }
}

/// Writes a value's spelling. Without memory the writer is as it was.
pub fn write<T: Xdr>(alloc: Global, writer: &mut Writer, value: &T) -> Mem<()>
    requires { T.form.Fits value.now }
    ensures ok { OnOk result (Appends writer.old (T.form.spell value.now) writer.new) }
    ensures err { OnErr result (writer.new ≡ writer.old) }
{
    let mut fresh = Writer::new(alloc)?;
    value.put(&mut fresh)?;
    writer.append(fresh.as_slice())
}

/// Writes four values, one after the other: fields of a struct that has more than seven. Without memory
/// a part may be written.
pub fn put_four<A: Xdr, B: Xdr, C: Xdr, D: Xdr>(
    writer: &mut Writer,
    a: &A,
    b: &B,
    c: &C,
    d: &D,
) -> Mem<()>
    requires { A.form.Fits a.now × B.form.Fits b.now × C.form.Fits c.now × D.form.Fits d.now }
    ensures { OnOk result (Appends writer.old (A.form.spell a.now ++ (B.form.spell b.now ++ (C.form.spell c.now ++ D.form.spell d.now))) writer.new) }
{
    a.put(writer)?;
    b.put(writer)?;
    c.put(writer)?;
    d.put(writer)
}
