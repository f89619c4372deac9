ghost use Rattle.wire_xdr.specs.Forms.{option};

use crate::form::bad::ReadError;
use crate::form::xdr::Xdr;
use crate::reader::Reader;
use crate::writer::Writer;
use outcome::Mem;
use std::alloc::Global;

impl<T: Xdr> Xdr for Option<T> {
    ghost form = { option T.form };

    #[tactic(auto, unfolding(crate::specs::Parts::option_read))]
    fn parse(alloc: Global, reader: &mut Reader) -> Result<Option<T>, ReadError> {
        if bool::parse(alloc, reader)? {
            return Ok(Some(T::parse(alloc, reader)?));
        }
        Ok(None)
    }

    #[tactic(auto, unfolding(crate::specs::Parts::option_spell))]
    fn put(&self, writer: &mut Writer) -> Mem<()> {
        match self {
            Some(value) => {
                true.put(writer)?;
                value.put(writer)
            }
            None => false.put(writer),
        }
    }
}
