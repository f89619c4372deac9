ghost use Rattle.wire_xdr.specs.Forms.{both};

use crate::form::bad::ReadError;
use crate::form::xdr::Xdr;
use crate::reader::Reader;
use crate::writer::Writer;
use outcome::Mem;
use std::alloc::Global;

// One after the other: fields of a struct, as nested pairs.
impl<A: Xdr, B: Xdr> Xdr for (A, B) {
    ghost form = { both A.form B.form };

    fn parse(alloc: Global, reader: &mut Reader) -> Result<(A, B), ReadError> {
        let first = A::parse(alloc, reader)?;
        let second = B::parse(alloc, reader)?;
        Ok((first, second))
    }

    fn put(&self, writer: &mut Writer) -> Mem<()> {
        self.0.put(writer)?;
        self.1.put(writer)
    }
}
