ghost use Rattle.std.specs.Prelude.{◌≡◌};
ghost use Rattle.copy_ops.specs.Forms.{copy_arg, copy_arg_number, copy_arg_own};

use crate::operation::{OP_CLONE, OP_COPY, OP_COPY_NOTIFY, OP_OFFLOAD_CANCEL, OP_OFFLOAD_STATUS};
use crate::{CloneArgs, CopyArgs, NotifyArgs};
use nfs_base::StateId;
use outcome::Mem;
use std::alloc::Global;
use wire_xdr::{ReadError, Reader, Writer, Xdr, XdrBy};

/// The arguments of an operation of a copy, by the operation. OFFLOAD_CANCEL and OFFLOAD_STATUS have the
/// copy's stateid alone (RFC 7862 sections 15.8 and 15.9).
#[derive(Drop)]
pub enum CopyArg {
    Copy(CopyArgs),
    CopyNotify(NotifyArgs),
    OffloadCancel(StateId),
    OffloadStatus(StateId),
    Clone(CloneArgs),
}

impl CopyArg {
    /// The operation's number.
    pub fn number(&self) -> u32
        ensures { result ≡ copy_arg_number self.now }
    {
        match self {
            CopyArg::Copy(_) => OP_COPY,
            CopyArg::CopyNotify(_) => OP_COPY_NOTIFY,
            CopyArg::OffloadCancel(_) => OP_OFFLOAD_CANCEL,
            CopyArg::OffloadStatus(_) => OP_OFFLOAD_STATUS,
            CopyArg::Clone(_) => OP_CLONE,
        }
    }
}

impl XdrBy for CopyArg {
    ghost form = { copy_arg };

    ghost number_of = { copy_arg_number };

    #[tactic(auto, unfolding(crate::specs::Forms::copy_arg))]
    fn parse_by(alloc: Global, number: u32, reader: &mut Reader) -> Result<CopyArg, ReadError> {
        match number {
            OP_COPY => CopyArgs::parse(alloc, reader).map(CopyArg::Copy),
            OP_COPY_NOTIFY => NotifyArgs::parse(alloc, reader).map(CopyArg::CopyNotify),
            OP_OFFLOAD_CANCEL => StateId::parse(alloc, reader).map(CopyArg::OffloadCancel),
            OP_OFFLOAD_STATUS => StateId::parse(alloc, reader).map(CopyArg::OffloadStatus),
            OP_CLONE => CloneArgs::parse(alloc, reader).map(CopyArg::Clone),
            _ => Err(ReadError::at(reader.at())),
        }
    }

    #[tactic(auto, unfolding(crate::specs::Forms::copy_arg))]
    fn put_by(&self, writer: &mut Writer) -> Mem<()> {
        match self {
            CopyArg::Copy(args) => args.put(writer),
            CopyArg::CopyNotify(args) => args.put(writer),
            CopyArg::OffloadCancel(id) => id.put(writer),
            CopyArg::OffloadStatus(id) => id.put(writer),
            CopyArg::Clone(args) => args.put(writer),
        }
    }

    ghost own = { copy_arg_own };
}
