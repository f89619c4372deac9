ghost use Rattle.nfs_base.specs.Forms.{time};

use outcome::Mem;
use std::alloc::Global;
use wire_xdr::{ReadError, Reader, Writer, Xdr};

/// A time, or a length of time (nfstime4, RFC 8881 section 3.3.1): seconds and nanoseconds. Any number of
/// nanoseconds is kept.
#[derive(Clone, Copy, PartialEq, Eq)]
pub struct Time {
    pub secs: i64,
    pub nanos: u32,
}

impl Xdr for Time {
    ghost form = { time };

    #[tactic(auto, unfolding(crate::specs::Forms::time))]
    fn parse(alloc: Global, reader: &mut Reader) -> Result<Time, ReadError> {
        let (secs, nanos) = <(i64, u32)>::parse(alloc, reader)?;
        Ok(Time { secs, nanos })
    }

    #[tactic(auto, unfolding(crate::specs::Forms::time))]
    fn put(&self, writer: &mut Writer) -> Mem<()> {
        (self.secs, self.nanos).put(writer)
    }
}
