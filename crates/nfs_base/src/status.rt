ghost use Rattle.std.specs.Prelude.{Some, decimal};
ghost use Rattle.nfs_base.specs.Forms.{status};

use outcome::Mem;
use std::alloc::Global;
use std::fmt;
use wire_xdr::{ReadError, Reader, Writer, Xdr};

/// An NFS status by its number (nfsstat4, RFC 8881 section 15.1 and RFC 7862 section 11.1). A number that
/// has no name here is kept, and written back so.
#[derive(Clone, Copy, PartialEq, Eq)]
pub struct Status {
    pub number: u32,
}

impl Status {
    /// All was done.
    pub const OK: Status = Status { number: 0 };

    /// There is no file of that name.
    pub const NOENT: Status = Status { number: 2 };

    /// The disk failed.
    pub const IO: Status = Status { number: 5 };

    /// The caller has no leave to do this.
    pub const ACCESS: Status = Status { number: 13 };

    /// There is a file of that name already.
    pub const EXIST: Status = Status { number: 17 };

    /// The file is a directory, and the operation takes none.
    pub const ISDIR: Status = Status { number: 21 };

    /// An argument is not valid for the operation.
    pub const INVAL: Status = Status { number: 22 };

    /// The file would become too large.
    pub const FBIG: Status = Status { number: 27 };

    /// The volume has no room left.
    pub const NOSPC: Status = Status { number: 28 };

    /// The handle is of a file that is gone, or of another volume.
    pub const STALE: Status = Status { number: 70 };

    /// The handle isn't one that this server makes.
    pub const BADHANDLE: Status = Status { number: 10001 };

    /// The operation, or this use of it, isn't supported.
    pub const NOTSUPP: Status = Status { number: 10004 };

    /// The server failed in a way that no other status tells.
    pub const SERVERFAULT: Status = Status { number: 10006 };

    /// The server can't do this now: the caller is to try again later.
    pub const DELAY: Status = Status { number: 10008 };

    /// The lease of the state ran out.
    pub const EXPIRED: Status = Status { number: 10011 };

    /// There is no current file, and the operation needs one.
    pub const NOFILEHANDLE: Status = Status { number: 10020 };

    /// The minor version isn't one that the server speaks.
    pub const MINOR_VERS_MISMATCH: Status = Status { number: 10021 };

    /// The client ID isn't known to the server.
    pub const STALE_CLIENTID: Status = Status { number: 10022 };

    /// The stateid's seqid is older than that of its state.
    pub const OLD_STATEID: Status = Status { number: 10024 };

    /// The stateid names no state that the operation may use.
    pub const BAD_STATEID: Status = Status { number: 10025 };

    /// The arguments can't be read.
    pub const BADXDR: Status = Status { number: 10036 };

    /// The file isn't open in the mode that the operation needs.
    pub const OPENMODE: Status = Status { number: 10038 };

    /// The number is of no operation.
    pub const OP_ILLEGAL: Status = Status { number: 10044 };

    /// The session isn't known to the server.
    pub const BADSESSION: Status = Status { number: 10052 };

    /// The session has no slot of that number.
    pub const BADSLOT: Status = Status { number: 10053 };

    /// The client has said before that it reclaims nothing more.
    pub const COMPLETE_ALREADY: Status = Status { number: 10054 };

    /// The sequence number is neither the slot's last nor the one after it.
    pub const SEQ_MISORDERED: Status = Status { number: 10063 };

    /// SEQUENCE stands behind another operation.
    pub const SEQUENCE_POS: Status = Status { number: 10064 };

    /// The reply would be larger than the session allows.
    pub const REP_TOO_BIG: Status = Status { number: 10066 };

    /// The COMPOUND has more operations than the session allows.
    pub const TOO_MANY_OPS: Status = Status { number: 10070 };

    /// The COMPOUND doesn't begin with SEQUENCE, and its operation needs a session.
    pub const OP_NOT_IN_SESSION: Status = Status { number: 10071 };

    /// The client still holds state, and can't be ended.
    pub const CLIENTID_BUSY: Status = Status { number: 10074 };

    /// A slot's last sequence number came again with another request.
    pub const SEQ_FALSE_RETRY: Status = Status { number: 10076 };

    /// The operation must stand alone in its COMPOUND.
    pub const NOT_ONLY_OP: Status = Status { number: 10081 };

    /// The other server doesn't speak the copy protocol.
    pub const PARTNER_NOTSUPP: Status = Status { number: 10088 };

    /// The other server doesn't let this one copy.
    pub const PARTNER_NO_AUTH: Status = Status { number: 10089 };

    /// The network location is of a kind that isn't supported.
    pub const UNION_NOTSUPP: Status = Status { number: 10090 };

    /// The server doesn't do this copy.
    pub const OFFLOAD_DENIED: Status = Status { number: 10091 };

    /// The file's label format isn't supported.
    pub const WRONG_LFS: Status = Status { number: 10092 };

    /// The server can't copy in the way that was asked for.
    pub const OFFLOAD_NO_REQS: Status = Status { number: 10094 };
}

impl fmt::Display for Status {
    ghost output = { λ status. Some (decimal status.number) };

    fn fmt<W: fmt::Write>(&self, f: &mut fmt::Formatter<W>) -> fmt::Result {
        write!(f, "{}", self.number)
    }
}

impl Xdr for Status {
    ghost form = { status };

    #[tactic(auto, unfolding(crate::specs::Forms::status))]
    fn parse(alloc: Global, reader: &mut Reader) -> Result<Status, ReadError> {
        Ok(Status {
            number: u32::parse(alloc, reader)?,
        })
    }

    #[tactic(auto, unfolding(crate::specs::Forms::status))]
    fn put(&self, writer: &mut Writer) -> Mem<()> {
        self.number.put(writer)
    }
}
