ghost use Rattle.std.specs.Prelude.{◌≡◌, IfOk};
ghost use Rattle.wire_xdr.specs.All.{ReadsAll, IsAllSpelled};

use crate::form::bad::{BadXdr, ReadError};
use crate::form::xdr::Xdr;
use crate::octets::Octets;
use crate::reader::Reader;
use crate::writer::Writer;
use outcome::{Mem, NoMemory};
use std::alloc::Global;

/// Reads the value that all of the bytes spell. It is read exactly where they are its spelling; a refusal
/// names the first place that fails, or the place behind the value where more bytes stand there, and lies
/// within the bytes or at their end.
pub fn read_all<T: Xdr>(alloc: Global, bytes: &[u8]) -> Mem<Result<T, BadXdr>>
    ensures { IfOk result (ReadsAll T.form bytes.now) }
{
    let mut reader = Reader::new(bytes);
    let _rest = reader.rest();
    match T::parse(alloc, &mut reader) {
        Ok(value) => {
            if reader.rest().is_empty() {
                return Ok(Ok(value));
            }
            Ok(Err(BadXdr { at: reader.at() }))
        }
        Err(ReadError::Bad(bad)) => Ok(Err(bad)),
        Err(ReadError::Memory) => Err(NoMemory),
    }
}

/// The spelling of a value.
pub fn write_all<T: Xdr>(alloc: Global, value: &T) -> Mem<Octets>
    requires { T.form.Fits value.now }
    ensures { IfOk result (λ bytes. bytes ≡ T.form.spell value.now) }
{
    let mut writer = Writer::new(alloc)?;
    value.put(&mut writer)?;
    Ok(writer.finish())
}

/// A value is what all of the bytes spell exactly where they are its spelling.
pub fn all_is_spelled<T: Xdr>()
    ensures { IsAllSpelled T.form }
{}
