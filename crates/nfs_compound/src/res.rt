//! The results of a COMPOUND.

ghost use Rattle.std.specs.Prelude.{◌≡◌};
ghost use Rattle.nfs_compound.specs.Results.{res_number, res_status, res_body, res_own, outcome};

use copy_ops::{CopyRes, is_copy_op};
use file_ops::{FileRes, is_file_op};
use nfs_base::Status;
use outcome::Mem;
use std::alloc::Global;
use wire_xdr::{ReadError, Reader, Writer, Xdr, XdrBy};

/// The result of an operation of a COMPOUND. An operation that has no variant in the first two is answered by
/// `Bare`, with a status other than 0.
#[derive(Drop)]
pub enum Res {
    Copy(CopyRes),
    File(FileRes),
    Bare { op: u32, status: Status },
}

impl Res {
    /// The number of the operation that is answered.
    pub fn number(&self) -> u32
        ensures { result ≡ res_number self.now }
    {
        match self {
            Res::Copy(res) => res.number(),
            Res::File(res) => res.number(),
            Res::Bare { op, .. } => *op,
        }
    }

    /// The status that the result begins with.
    pub fn status(&self) -> Status
        ensures { result ≡ res_status self.now }
    {
        match self {
            Res::Copy(res) => res.status(),
            Res::File(res) => res.status(),
            Res::Bare { status, .. } => *status,
        }
    }
}

impl XdrBy for Res {
    ghost form = { res_body };

    ghost number_of = { res_number };

    #[tactic(auto, unfolding(crate::specs::Results::res_body))]
    fn parse_by(alloc: Global, number: u32, reader: &mut Reader) -> Result<Res, ReadError> {
        if is_copy_op(number) {
            return Ok(Res::Copy(CopyRes::parse_by(alloc, number, reader)?));
        }
        if is_file_op(number) {
            return Ok(Res::File(FileRes::parse_by(alloc, number, reader)?));
        }
        let start = reader.at();
        let status = Status::parse(alloc, reader)?;
        if status.number == 0 {
            return Err(ReadError::at(start));
        }
        Ok(Res::Bare { op: number, status })
    }

    #[tactic(auto, unfolding(crate::specs::Results::res_body))]
    fn put_by(&self, writer: &mut Writer) -> Mem<()> {
        match self {
            Res::Copy(res) => res.put_by(writer),
            Res::File(res) => res.put_by(writer),
            Res::Bare { status, .. } => status.put(writer),
        }
    }

    ghost own = { res_own };
}

impl Xdr for Res {
    ghost form = { outcome };

    #[tactic(auto, unfolding(crate::specs::Results::outcome))]
    fn parse(alloc: Global, reader: &mut Reader) -> Result<Res, ReadError> {
        let number = u32::parse(alloc, reader)?;
        Res::parse_by(alloc, number, reader)
    }

    #[tactic(auto, unfolding(crate::specs::Results::outcome))]
    fn put(&self, writer: &mut Writer) -> Mem<()> {
        self.number().put(writer)?;
        self.put_by(writer)
    }
}
