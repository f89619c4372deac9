//! Operations that are refused, by their numbers.

ghost use Rattle.std.specs.Prelude.{◌≡◌, ◌≢◌, false, MatchOption};
ghost use Rattle.nfs_base.specs.declared.status.TheConstants.Status.{OFFLOAD_NO_REQS};
ghost use Rattle.file_ops.specs.Operations.{is_file_op};
ghost use Rattle.copy_ops.specs.Operations.{is_copy_op};
ghost use Rattle.nfs_compound.specs.Results.{IsRefusal};

use crate::res::Res;
use copy_ops::{
    CopyAnswer, CopyRes, OP_CLONE, OP_COPY, OP_COPY_NOTIFY, OP_OFFLOAD_CANCEL, OP_OFFLOAD_STATUS,
};
use file_ops::{
    FileRes, OP_CLOSE, OP_COMMIT, OP_CREATE_SESSION, OP_DESTROY_CLIENTID, OP_DESTROY_SESSION,
    OP_EXCHANGE_ID, OP_GETATTR, OP_GETFH, OP_ILLEGAL, OP_LOOKUP, OP_OPEN, OP_PUTFH, OP_PUTROOTFH,
    OP_READ, OP_RECLAIM_COMPLETE, OP_RESTOREFH, OP_SAVEFH, OP_SEQUENCE, OP_WRITE,
};
use nfs_base::{Answer, Status};

impl Res {
    /// The result of the operation with a number that was answered with this status and nothing more. The
    /// status is neither 0 nor OFFLOAD_NO_REQS, behind which COPY tells more.
    #[tactic(auto, unfolding(crate::specs::Results::outcome, crate::specs::Results::res_body, nfs_base::specs::Forms::status))]
    pub fn refused(op: u32, status: Status) -> Res
        requires failed { status.number ≢ 0 }
        requires no_more { status.number ≢ OFFLOAD_NO_REQS.number }
        ensures { IsRefusal op status.number result }
    {
        match refused_copy(op, status) {
            Some(res) => res,
            None => match refused_file(op, status) {
                Some(res) => res,
                None => Res::Bare { op, status },
            },
        }
    }
}

/// The refusal of an operation of a copy.
#[tactic(auto, unfolding(crate::specs::Results::outcome, crate::specs::Results::res_body, copy_ops::specs::Forms::copy_res, copy_ops::specs::Forms::copy_answer, nfs_base::specs::Forms::answer, nfs_base::specs::Forms::status))]
fn refused_copy(op: u32, status: Status) -> Option<Res>
    requires failed { status.number ≢ 0 }
    requires no_more { status.number ≢ OFFLOAD_NO_REQS.number }
    ensures { MatchOption result (is_copy_op op ≡ false) (IsRefusal op status.number) }
{
    match op {
        OP_COPY => Some(Res::Copy(CopyRes::Copy(CopyAnswer::Refused(status)))),
        OP_COPY_NOTIFY => Some(Res::Copy(CopyRes::CopyNotify(Answer::Refused(status)))),
        OP_OFFLOAD_CANCEL => Some(Res::Copy(CopyRes::OffloadCancel(status))),
        OP_OFFLOAD_STATUS => Some(Res::Copy(CopyRes::OffloadStatus(Answer::Refused(status)))),
        OP_CLONE => Some(Res::Copy(CopyRes::Clone(status))),
        _ => None,
    }
}

/// The refusal of a file operation.
#[tactic(auto, unfolding(crate::specs::Results::outcome, crate::specs::Results::res_body, file_ops::specs::Results::file_res, nfs_base::specs::Forms::answer, nfs_base::specs::Forms::status))]
fn refused_file(op: u32, status: Status) -> Option<Res>
    requires failed { status.number ≢ 0 }
    ensures { MatchOption result (is_file_op op ≡ false) (IsRefusal op status.number) }
{
    let res = match op {
        OP_CLOSE => FileRes::Close(Answer::Refused(status)),
        OP_COMMIT => FileRes::Commit(Answer::Refused(status)),
        OP_GETATTR => FileRes::GetAttr(Answer::Refused(status)),
        OP_GETFH => FileRes::GetFh(Answer::Refused(status)),
        OP_LOOKUP => FileRes::Lookup(status),
        OP_OPEN => FileRes::Open(Answer::Refused(status)),
        OP_PUTFH => FileRes::PutFh(status),
        OP_PUTROOTFH => FileRes::PutRootFh(status),
        OP_READ => FileRes::Read(Answer::Refused(status)),
        OP_RESTOREFH => FileRes::RestoreFh(status),
        OP_SAVEFH => FileRes::SaveFh(status),
        OP_WRITE => FileRes::Write(Answer::Refused(status)),
        OP_EXCHANGE_ID => FileRes::ExchangeId(Answer::Refused(status)),
        OP_CREATE_SESSION => FileRes::CreateSession(Answer::Refused(status)),
        OP_DESTROY_SESSION => FileRes::DestroySession(status),
        OP_SEQUENCE => FileRes::Sequence(Answer::Refused(status)),
        OP_DESTROY_CLIENTID => FileRes::DestroyClientId(status),
        OP_RECLAIM_COMPLETE => FileRes::ReclaimComplete(status),
        OP_ILLEGAL => FileRes::Illegal(status),
        _ => return None,
    };
    Some(Res::File(res))
}
