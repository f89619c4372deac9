//! What the source's answer is for a job.

ghost use Rattle.std.specs.Prelude.{◌≡◌, ◌≤◌};
ghost use Rattle.dest_work.specs.Findings.{answered, brought, brought_by, by_status, denied_by, is_unknown, len_of, finding_of, range_len, refused_by, sized_by};
ghost use Rattle.dest_tasks.specs.Posts.{is_confirm};

use call_results::{bytes_in, size_in};
use dest_tasks::Errand;
use job_book::Plan;
use mount::Told;
use nfs_base::{Status, Stop};
use nfs_compound::{Reply, Res};
use rpc_msg::{Denial, RPCSEC_GSS_CREDPROBLEM, SUCCESS};
use wire_xdr::{Items, Octets};

/// What the source's answer to a worker's call is for the job.
#[derive(Drop)]
pub enum Finding {
    /// It isn't the answer.
    Unmatched,

    /// What was asked for is there.
    GoesOn,

    /// The source didn't know the context of the job's CREATE, for the first time. The mount begins again.
    FirstDenial,

    /// The job is over, where it still can be stopped.
    Stops(Stop),

    /// The source's file has this size in bytes.
    HasSize(u64),

    /// These are the bytes of the chunk, as many as were asked for.
    Brings(Octets),
}

/// What the answer to a call is. `denied` tells whether a CREATE for the job was denied before.
pub fn finding_of(errand: Errand, denied: bool, told: Told) -> Finding
    ensures { result ≡ finding_of errand denied told }
{
    match told {
        Told::Unmatched => Finding::Unmatched,
        Told::Rooted => Finding::GoesOn,
        Told::Child(_) => Finding::GoesOn,
        Told::Refused(_) => Finding::Stops(Stop::SourceRefused(Status::PARTNER_NO_AUTH)),
        Told::Stepped => Finding::GoesOn,
        Told::Stopped(status) => refused_by(status),
        Told::Answer(reply) => by_status(errand, reply),
        Told::Misspelt => Finding::Stops(Stop::SourceFailed(SUCCESS)),
        Told::Failed(stat) => Finding::Stops(Stop::SourceFailed(stat.number())),
        Told::Denied(why) => denied_by(is_confirm(errand) && is_unknown(why) && !denied),
    }
}

fn refused_by(status: Status) -> Finding
    ensures { result ≡ refused_by status }
{
    if status.number == 0 {
        return Finding::Stops(Stop::SourceFailed(SUCCESS));
    }
    Finding::Stops(Stop::SourceRefused(status))
}

fn is_confirm(errand: Errand) -> bool
    ensures { result ≡ is_confirm errand }
{
    matches!(errand, Errand::Confirm)
}

fn is_unknown(why: Denial) -> bool
    ensures { result ≡ is_unknown why }
{
    match why {
        Denial::Auth(number) => number == RPCSEC_GSS_CREDPROBLEM,
        Denial::Mismatch { .. } => false,
    }
}

fn denied_by(first: bool) -> Finding
    ensures { result ≡ denied_by first }
{
    if first {
        Finding::FirstDenial
    } else {
        Finding::Stops(Stop::SourceRefused(Status::PARTNER_NO_AUTH))
    }
}

fn by_status(errand: Errand, reply: Reply) -> Finding
    ensures { result ≡ by_status errand reply }
{
    if reply.status.number == 0 {
        answered(errand, reply.results)
    } else {
        Finding::Stops(Stop::SourceRefused(reply.status))
    }
}

fn answered(errand: Errand, results: Items<Res>) -> Finding
    ensures { result ≡ answered errand results }
{
    match errand {
        Errand::Setup => Finding::GoesOn,
        Errand::Confirm => Finding::GoesOn,
        Errand::Size => sized_by(size_in(results.as_slice())),
        Errand::Bytes(chunk) => brought_by(chunk.len, bytes_in(results)),
    }
}

fn sized_by(size: Option<u64>) -> Finding
    ensures { result ≡ sized_by size }
{
    match size {
        None => Finding::Stops(Stop::SourceFailed(SUCCESS)),
        Some(size) => Finding::HasSize(size),
    }
}

fn brought_by(asked: u32, bytes: Option<Octets>) -> Finding
    ensures { result ≡ brought_by asked bytes }
{
    match bytes {
        None => Finding::Stops(Stop::SourceFailed(SUCCESS)),
        Some(bytes) => brought(asked, bytes),
    }
}

fn brought(asked: u32, bytes: Octets) -> Finding
    ensures { result ≡ brought asked bytes }
{
    if bytes.len() > asked as usize {
        Finding::Stops(Stop::SourceFailed(SUCCESS))
    } else if bytes.len() < asked as usize {
        Finding::Stops(Stop::PastEnd)
    } else {
        Finding::Brings(bytes)
    }
}

/// The length of a job's range, once the size of the source's file is known, where files have this capacity here; or why the
/// job is over. All are bytes.
pub fn len_of(plan: &Plan, capacity: u64, size: u64) -> Result<u64, Stop>
    ensures { result ≡ len_of plan.now capacity size }
{
    if u128::from(plan.src_off) + u128::from(plan.count) > u128::from(size) {
        return Err(Stop::PastEnd);
    }
    let len = range_len(plan, size);
    if u128::from(plan.dst_off) + u128::from(len) > u128::from(capacity) {
        return Err(Stop::NoRoom);
    }
    Ok(len)
}

fn range_len(plan: &Plan, size: u64) -> u64
    requires { plan.now.src_off ≤ size }
    ensures { result ≡ range_len plan.now size }
{
    if plan.count == 0 {
        size - plan.src_off
    } else {
        plan.count
    }
}
