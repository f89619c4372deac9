//! Results of operations of a copy.

ghost use Rattle.std.specs.Prelude.{◌≡◌, slice_get, option_and_then};
ghost use Rattle.call_results.specs.Results as spec;

use crate::files::told_change;
use copy_ops::{CopyAnswer, CopyRes, OffloadProgress};
use nfs_base::{Answer, StateId};
use nfs_compound::Res;

/// What a GETATTR of the change attribute with a COPY_NOTIFY behind it told (RFC 7862 section 15.3).
#[derive(Clone, Copy)]
pub struct Granted {
    pub change: u64,

    /// With what stateid the destination reads.
    pub id: StateId,
}

/// What the results of PUTFH, GETATTR and COPY_NOTIFY tell.
pub fn grant_in(results: &[Res]) -> Option<Granted>
    ensures { result ≡ spec.grant_in results.now }
{
    let change = told_change(results.get(2)?)?;
    let id = told_grant(results.get(3)?)?;
    Some(Granted { change, id })
}

/// The stateid of the copy that goes on, which the results of PUTFH, SAVEFH, PUTFH and COPY tell (RFC 7862 section 15.2).
/// None also where none goes on.
pub fn accepted_in(results: &[Res]) -> Option<StateId>
    ensures { result ≡ spec.at 4 spec.told_accepted results.now }
{
    told_accepted(results.get(4)?)
}

/// What a PUTFH and an OFFLOAD_STATUS tell (RFC 7862 section 15.9).
pub fn progress_in(results: &[Res]) -> Option<OffloadProgress>
    ensures { result ≡ spec.at 2 spec.told_progress results.now }
{
    told_progress(results.get(2)?)
}

fn told_grant(res: &Res) -> Option<StateId>
    ensures { result ≡ spec.told_grant res.now }
{
    match res {
        Res::Copy(CopyRes::CopyNotify(Answer::Done(grant))) => Some(grant.id),
        _ => None,
    }
}

fn told_accepted(res: &Res) -> Option<StateId>
    ensures { result ≡ spec.told_accepted res.now }
{
    match res {
        Res::Copy(CopyRes::Copy(CopyAnswer::Done(copy))) => copy.response.callback_id,
        _ => None,
    }
}

fn told_progress(res: &Res) -> Option<OffloadProgress>
    ensures { result ≡ spec.told_progress res.now }
{
    match res {
        Res::Copy(CopyRes::OffloadStatus(Answer::Done(progress))) => Some(*progress),
        _ => None,
    }
}
