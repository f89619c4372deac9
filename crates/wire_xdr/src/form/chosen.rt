ghost use Rattle.std.specs.Prelude.{◌≡◌, ℕ, OnOk, OnErr};
ghost use Rattle.wire_xdr.specs.Cursor.{Appends};
ghost use Rattle.wire_xdr.specs.Form.{Form};
ghost use Rattle.wire_xdr.specs.Reads.{Reads, IsRead, HasNumber};

use crate::form::bad::{BadXdr, ReadError};
use crate::reader::Reader;
use crate::writer::Writer;
use outcome::{Mem, NoMemory};
use std::alloc::Global;

/// A type whose values are spelled by a form that a number from outside chooses, as the arguments of an
/// operation are by the operation's number.
pub trait XdrBy: Drop {
    ghost form: { ℕ → Form Self };

    ghost number_of: { Self → ℕ };

    /// Reads a value of that number from left to right. After an error the reader may stand anywhere:
    /// [`read_by`] is the call for a whole value.
    fn parse_by(alloc: Global, number: u32, reader: &mut Reader) -> Result<Self, ReadError>
        ensures { Reads result reader.new ((form number).read reader.old) };

    /// Writes the value's spelling, without its number. Without memory a part of it may be written:
    /// [`write_by`] is the call for a whole value.
    fn put_by(&self, writer: &mut Writer) -> Mem<()>
        requires { (form (number_of self.now)).Fits self.now }
        ensures { OnOk result (Appends writer.old ((form (number_of self.now)).spell self.now) writer.new) };

    /// A value that a number's form spells is of that number.
    ghost own: { (number : ℕ) (v : Self) → (form number).Fits v → number_of v ≡ number };
}

/// Reads a value of that number, with the contract of [`crate::read`]; what is read may be written again.
pub fn read_by<T: XdrBy>(alloc: Global, number: u32, reader: &mut Reader) -> Mem<Result<T, BadXdr>>
    ensures read { IsRead (T.form number) result reader.old reader.new }
    ensures own { HasNumber T.number_of number result }
{
    let _rest = reader.rest();
    let mut next = reader.again();
    match T::parse_by(alloc, number, &mut next) {
        Ok(value) => {
            *reader = next;
            Ok(Ok(value))
        }
        Err(ReadError::Bad(bad)) => Ok(Err(bad)),
        Err(ReadError::Memory) => Err(NoMemory),
    }
}

/// Writes a value's spelling, without its number. Without memory the writer is as it was.
pub fn write_by<T: XdrBy>(alloc: Global, writer: &mut Writer, value: &T) -> Mem<()>
    requires { (T.form (T.number_of value.now)).Fits value.now }
    ensures ok { OnOk result (Appends writer.old ((T.form (T.number_of value.now)).spell value.now) writer.new) }
    ensures err { OnErr result (writer.new ≡ writer.old) }
{
    let mut fresh = Writer::new(alloc)?;
    value.put_by(&mut fresh)?;
    writer.append(fresh.as_slice())
}
