ghost use Rattle.gss_mech.specs.Opening.{opening};

use outcome::Mem;
use std::alloc::Global;
use wire_xdr::{Octets, ReadError, Reader, Writer, Xdr};

/// The token of a realm that begins a context: who begins it, with which nonce, and the code of both
/// under the principal's key.
#[derive(Drop)]
pub struct Opening {
    pub principal: Octets,
    pub nonce: [u8; 32],
    pub code: [u8; 32],
}

impl Xdr for Opening {
    ghost form = { opening };

    #[tactic(auto, unfolding(crate::specs::Opening::opening))]
    fn parse(alloc: Global, reader: &mut Reader) -> Result<Opening, ReadError> {
        Ok(Opening {
            principal: Octets::parse(alloc, reader, 64)?,
            nonce: <[u8; 32]>::parse(alloc, reader)?,
            code: <[u8; 32]>::parse(alloc, reader)?,
        })
    }

    #[tactic(auto, unfolding(crate::specs::Opening::opening))]
    fn put(&self, writer: &mut Writer) -> Mem<()> {
        self.principal.put(writer)?;
        self.nonce.put(writer)?;
        self.code.put(writer)
    }
}
