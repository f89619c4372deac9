//! Words of which one value is spoken here.

ghost use Rattle.file_ops.specs.Free.{zero_word};

use outcome::Mem;
use std::alloc::Global;
use wire_xdr::{ReadError, Reader, Writer, Xdr};

/// How many bytes or values stand where there is no limit but the record's: as many as a word can say.
pub(crate) const NO_LIMIT: u32 = u32::MAX;

/// A word that is 0. Any other is refused where it begins.
#[derive(Clone, Copy)]
pub enum Zero {
    Word,
}

impl Xdr for Zero {
    ghost form = { zero_word };

    #[tactic(auto, unfolding(crate::specs::Free::zero_word))]
    fn parse(alloc: Global, reader: &mut Reader) -> Result<Zero, ReadError> {
        let start = reader.at();
        match u32::parse(alloc, reader)? {
            0 => Ok(Zero::Word),
            _ => Err(ReadError::at(start)),
        }
    }

    #[tactic(auto, unfolding(crate::specs::Free::zero_word))]
    fn put(&self, writer: &mut Writer) -> Mem<()> {
        match self {
            Zero::Word => {
                0u32.put(writer)?;
                writer.void()
            }
        }
    }
}
