ghost use Rattle.nfs_base.specs.Forms.{stability, write_response};

use crate::StateId;
use outcome::Mem;
use std::alloc::Global;
use wire_xdr::{ReadError, Reader, Writer, Xdr};

/// How safe data is, by number (stable_how4, RFC 8881 section 18.32.1).
const UNSTABLE4: u32 = 0;

const DATA_SYNC4: u32 = 1;

const FILE_SYNC4: u32 = 2;

/// How safe written data is to be, or is (stable_how4, RFC 8881 section 18.32).
#[derive(Clone, Copy, PartialEq, Eq)]
pub enum Stability {
    /// It may be lost in a crash until a COMMIT.
    Unstable,

    /// It is safe, and so is what is needed to read it.
    DataSync,

    /// It is safe, and so is all that is known of the file.
    FileSync,
}

impl Xdr for Stability {
    ghost form = { stability };

    #[tactic(auto, unfolding(crate::specs::Forms::stability))]
    fn parse(alloc: Global, reader: &mut Reader) -> Result<Stability, ReadError> {
        let start = reader.at();
        match u32::parse(alloc, reader)? {
            UNSTABLE4 => Ok(Stability::Unstable),
            DATA_SYNC4 => Ok(Stability::DataSync),
            FILE_SYNC4 => Ok(Stability::FileSync),
            _ => Err(ReadError::at(start)),
        }
    }

    #[tactic(auto, unfolding(crate::specs::Forms::stability))]
    fn put(&self, writer: &mut Writer) -> Mem<()> {
        match self {
            Stability::Unstable => {
                UNSTABLE4.put(writer)?;
                writer.void()
            }
            Stability::DataSync => {
                DATA_SYNC4.put(writer)?;
                writer.void()
            }
            Stability::FileSync => {
                FILE_SYNC4.put(writer)?;
                writer.void()
            }
        }
    }
}

/// What a copy has written (write_response4, RFC 7862 section 15.2).
#[derive(Clone, Copy, PartialEq, Eq)]
pub struct WriteResponse {
    /// The copy that goes on, where it isn't done with the answer.
    pub callback_id: Option<StateId>,

    /// Bytes written so far.
    pub count: u64,

    pub committed: Stability,

    /// It changes where unstable data may have been lost.
    pub verifier: [u8; 8],
}

impl Xdr for WriteResponse {
    ghost form = { write_response };

    #[tactic(auto, unfolding(crate::specs::Forms::write_response))]
    fn parse(alloc: Global, reader: &mut Reader) -> Result<WriteResponse, ReadError> {
        let (callback_id, (count, (committed, verifier))) = <(
            Option<StateId>,
            (u64, (Stability, [u8; 8])),
        )>::parse(alloc, reader)?;
        Ok(WriteResponse {
            callback_id,
            count,
            committed,
            verifier,
        })
    }

    #[tactic(auto, unfolding(crate::specs::Forms::write_response))]
    fn put(&self, writer: &mut Writer) -> Mem<()> {
        let written = (self.count, (self.committed, self.verifier));
        (self.callback_id, written).put(writer)
    }
}
