//! The operations of a copy in a compound: COPY, OFFLOAD_STATUS and OFFLOAD_CANCEL (RFC 7862 sections 15.2, 15.8 and 15.9).

ghost use Rattle.std.specs.Prelude.{◌≡◌, ◌+◌, ◌-◌, ◌^◌, ◌<◌, ◌≤◌, Ok};
ghost use Rattle.compound_server.specs.Serves.{Serves};
ghost use Rattle.file_server.specs.Answering.{Ready, Keeps, going_of, meant_id, open_refusal};
ghost use Rattle.dest_jobs.specs.Counting.{bytes_in};
ghost use Rattle.job_table.specs.Table.{new_log};
ghost use Rattle.server_volume.specs.Store.{store_of};
ghost use Rattle.state_ids.specs.declared.access.Access.TheVariants as access;
ghost use Rattle.dest_core.specs.Copying.{copy, copy_between, ends_of, job_in, offload_cancel, offload_status, room_of, seated_for};

use crate::destination::Destination;
use crate::saying::{say_copy, say_status};
use copy_ops::{CopyAnswer, CopyArgs, OP_COPY, OP_OFFLOAD_CANCEL};
use dest_back::Party;
use dest_jobs::{Carried, CopyRoom, Ends};
use dest_steps::Copier;
use disk_model::Disk;
use file_server::{Caller, Files, Held, Progress};
use nfs_base::{JobName, StateId, Status};
use state_ids::Access;

/// COPY: takes a copy as a job, or says why not.
pub(crate) fn copy<D: Disk, M>(
    files: &mut Files<D, Destination<M>>,
    caller: &Caller,
    carry: &Option<Carried>,
    args: CopyArgs,
    room: CopyRoom,
    p: &mut Progress,
) -> Status
    requires ready { Ready p.old 1 }
    requires room { room ≡ room_of carry.now args }
    requires numbered { files.old.extra.copier.copies.book.table.made < 2 ^ 32 - 1 }
    ensures serves { Serves (λ choice. copy caller.now carry.now args (going_of D.size files.old p.old)) p.old.page.bytes (going_of D.size files.new p.new) p.new.page.bytes result.number }
    ensures keeps { Keeps p.old p.new }
    ensures used { p.new.used ≡ p.old.used }
    ensures volume { files.new.volume ≡ files.old.volume }
    ensures opens { files.new.opens ≡ files.old.opens }
    ensures given { files.new.extra.copier.copies.book.table.made ≤ files.old.extra.copier.copies.book.table.made + 1 }
    ensures landed { bytes_in files.new.extra.copier.copies ≡ bytes_in files.old.extra.copier.copies }
{
    match ends_of(files, &p.held) {
        Err(status) => p.refuse(OP_COPY, status),
        Ok(ends) => copy_between(files, caller, carry, args, ends, room, p),
    }
}

fn copy_between<D: Disk, M>(
    files: &mut Files<D, Destination<M>>,
    caller: &Caller,
    carry: &Option<Carried>,
    args: CopyArgs,
    ends: Ends,
    room: CopyRoom,
    p: &mut Progress,
) -> Status
    requires ready { Ready p.old 1 }
    requires log { room.log ≡ new_log args.consecutive }
    requires numbered { files.old.extra.copier.copies.book.table.made < 2 ^ 32 - 1 }
    ensures serves { Serves (λ choice. copy_between (Ok ends) caller.now carry.now args room (going_of D.size files.old p.old)) p.old.page.bytes (going_of D.size files.new p.new) p.new.page.bytes result.number }
    ensures keeps { Keeps p.old p.new }
    ensures used { p.new.used ≡ p.old.used }
    ensures volume { files.new.volume ≡ files.old.volume }
    ensures opens { files.new.opens ≡ files.old.opens }
    ensures given { files.new.extra.copier.copies.book.table.made ≤ files.old.extra.copier.copies.book.table.made + 1 }
    ensures landed { bytes_in files.new.extra.copier.copies ≡ bytes_in files.old.extra.copier.copies }
{
    let closed = closed_for(files, &p.held.id, &args.dst_id, ends.file);
    let boot = files.volume.boot();
    let answer = files
        .extra
        .copier
        .copies
        .copy(caller.client, carry, &args, ends, room, closed, boot);
    seat(&mut files.extra.copier, &answer, caller.session, carry);
    say_copy(p, answer)
}

/// A copy that was taken as a job gets a seat, and the session on which it came is told how it ends.
fn seat(copier: &mut Copier, answer: &CopyAnswer, session: u32, carry: &Option<Carried>)
    ensures seated { copier.new ≡ seated_for session carry.now (job_in answer.now) copier.old }
    ensures given { copier.new.copies ≡ copier.old.copies }
{
    match carry {
        None => {}
        Some(carried) => match job_in(answer) {
            None => {}
            Some(job) => {
                let key = carried.root;
                copier.seat(job, Party { session, key });
            }
        },
    }
}

/// The job that a copy is now.
fn job_in(answer: &CopyAnswer) -> Option<JobName>
    ensures { result ≡ job_in answer.now }
{
    match answer {
        CopyAnswer::Refused(_) => None,
        CopyAnswer::NoReqs { .. } => None,
        CopyAnswer::Done(done) => match &done.response.callback_id {
            None => None,
            Some(id) => Some(JobName {
                boot: id.boot,
                number: id.number,
            }),
        },
    }
}

/// Why a stateid doesn't let write a file.
fn closed_for<D: Disk, M>(
    files: &Files<D, Destination<M>>,
    current: &Option<StateId>,
    id: &StateId,
    file: u32,
) -> Option<Status>
    ensures { result ≡ open_refusal files.now.opens (meant_id current.now id.now) file access.Write }
{
    match files.check_open(current, id, file, Access::Write) {
        Ok(()) => None,
        Err(status) => Some(status),
    }
}

/// Between which files a copy goes, by the current and the saved handle.
fn ends_of<D: Disk, M>(files: &Files<D, Destination<M>>, held: &Held) -> Result<Ends, Status>
    ensures { result ≡ ends_of (store_of D.size files.now.volume) held.now.current held.now.saved }
{
    if held.current.is_none() {
        return Err(Status::NOFILEHANDLE);
    }
    let source = match held.saved {
        Some(source) => source,
        None => return Err(Status::NOFILEHANDLE),
    };
    let file = files.current_file(&held.current)?;
    if file == 0 {
        return Err(Status::ISDIR);
    }
    Ok(Ends { source, file })
}

/// OFFLOAD_STATUS: how far a client's job is.
pub(crate) fn offload_status<D: Disk, M>(
    files: &mut Files<D, Destination<M>>,
    client: u64,
    id: &StateId,
    p: &mut Progress,
) -> Status
    requires { Ready p.old 1 }
    ensures serves { Serves (λ choice. offload_status client id.now (going_of D.size files.old p.old)) p.old.page.bytes (going_of D.size files.new p.new) p.new.page.bytes result.number }
    ensures keeps { Keeps p.old p.new }
    ensures used { p.new.used ≡ p.old.used }
    ensures volume { files.new.volume ≡ files.old.volume }
    ensures opens { files.new.opens ≡ files.old.opens }
    ensures given { files.new.extra.copier.copies.book.table.made ≡ files.old.extra.copier.copies.book.table.made }
    ensures landed { bytes_in files.new.extra.copier.copies ≡ bytes_in files.old.extra.copier.copies }
{
    let answer = files.extra.copier.copies.status(client, id);
    say_status(p, &answer)
}

/// OFFLOAD_CANCEL: ends a client's job.
pub(crate) fn offload_cancel<D: Disk, M>(
    files: &mut Files<D, Destination<M>>,
    client: u64,
    id: &StateId,
    p: &mut Progress,
) -> Status
    requires { Ready p.old 1 }
    ensures serves { Serves (λ choice. offload_cancel client id.now (going_of D.size files.old p.old)) p.old.page.bytes (going_of D.size files.new p.new) p.new.page.bytes result.number }
    ensures keeps { Keeps p.old p.new }
    ensures used { p.new.used ≡ p.old.used }
    ensures volume { files.new.volume ≡ files.old.volume }
    ensures opens { files.new.opens ≡ files.old.opens }
    ensures given { files.new.extra.copier.copies.book.table.made ≡ files.old.extra.copier.copies.book.table.made }
    ensures landed { bytes_in files.new.extra.copier.copies ≡ bytes_in files.old.extra.copier.copies }
{
    let status = files.extra.copier.copies.cancel(client, id);
    p.refuse(OP_OFFLOAD_CANCEL, status)
}
