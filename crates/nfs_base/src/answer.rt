ghost use Rattle.std.specs.Prelude.{◌≡◌};
ghost use Rattle.nfs_base.specs.Answers.{answer_status};
ghost use Rattle.nfs_base.specs.Forms.{answer};

use crate::Status;
use outcome::Mem;
use std::alloc::Global;
use wire_xdr::{ReadError, Reader, Writer, Xdr};

/// What an operation answers (RFC 8881 section 15): what it did, or with a status other than 0 nothing
/// more. A refusal with status 0 has no spelling.
#[derive(Drop)]
pub enum Answer<T> {
    Done(T),
    Refused(Status),
}

impl<T> Answer<T> {
    /// The status that the answer begins with.
    pub fn status(&self) -> Status
        ensures { result ≡ answer_status self.now }
    {
        match self {
            Answer::Done(_) => Status::OK,
            Answer::Refused(status) => *status,
        }
    }
}

impl<T: Xdr> Xdr for Answer<T> {
    ghost form = { answer T.form };

    #[tactic(auto, unfolding(crate::specs::Forms::answer))]
    fn parse(alloc: Global, reader: &mut Reader) -> Result<Answer<T>, ReadError> {
        match u32::parse(alloc, reader)? {
            0 => Ok(Answer::Done(T::parse(alloc, reader)?)),
            number => Ok(Answer::Refused(Status { number })),
        }
    }

    #[tactic(auto, unfolding(crate::specs::Forms::answer))]
    fn put(&self, writer: &mut Writer) -> Mem<()> {
        match self {
            Answer::Done(body) => {
                0u32.put(writer)?;
                body.put(writer)
            }
            Answer::Refused(status) => {
                status.number.put(writer)?;
                writer.void()
            }
        }
    }
}
