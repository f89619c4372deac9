//! COPY between servers, once it is known between which files (RFC 7862 sections 15.2 and 4.10.1.2).

ghost use Rattle.std.specs.Prelude.{◌≡◌, ◌+◌, ◌-◌, ◌^◌, ◌<◌, ◌≤◌};
ghost use Rattle.std.specs.List.{list_any};
ghost use Rattle.job_table.specs.Table.{new_log};
ghost use Rattle.dest_jobs.specs.Copying.{allows, copied, copy_noted, copy_told, decided, first_of, is_address, is_among, not_synchronous, offload_id, passes_end, plan_of, refusal, refused_for, refused_if};

use crate::carried::Carried;
use crate::copies::Copies;
use copy_ops::{CopyAnswer, CopyArgs, CopyDone};
use job_book::{Acceptance, JobLog, Plan};
use nfs_base::{Handle, JobName, NetLoc, Stability, StateId, Status, WriteResponse};
use outbox::Note;
use wire_xdr::Octets;

/// Between which files a copy goes: the handle that the source gave, and the number of the file here.
#[derive(Clone, Copy)]
pub struct Ends {
    pub source: Handle,
    pub file: u32,
}

/// What a job keeps of the privilege under which it was asked for, and its log.
#[derive(Drop)]
pub struct CopyRoom {
    pub secret: Octets,
    pub user: Octets,
    pub log: JobLog,
}

impl Copies {
    /// What COPY by a client answers, by the table of refusals; one that isn't refused is taken as a job. `closed` is why
    /// the destination's stateid doesn't let write, and `boot` the number of the volume's opening. It wants no memory.
    pub fn copy(
        &mut self,
        client: u64,
        carry: &Option<Carried>,
        args: &CopyArgs,
        ends: Ends,
        room: CopyRoom,
        closed: Option<Status>,
        boot: u32,
    ) -> CopyAnswer
        requires log { room.log ≡ new_log args.now.consecutive }
        requires numbered { self.old.book.table.made < 2 ^ 32 - 1 }
        ensures after { self.new ≡ (copied client carry.now args.now ends room closed boot self.old).0 }
        ensures answer { result ≡ (copied client carry.now args.now ends room closed boot self.old).1 }
        ensures given { self.new.book.table.made ≤ self.old.book.table.made + 1 }
    {
        match refusal(&self.source.loc, carry, args, closed) {
            Some(answer) => answer,
            None => self.take(client, args, ends, room, boot),
        }
    }

    /// Takes a copy that isn't refused as a job, where there is room and its range is free.
    fn take(
        &mut self,
        client: u64,
        args: &CopyArgs,
        ends: Ends,
        room: CopyRoom,
        boot: u32,
    ) -> CopyAnswer
        requires log { room.log ≡ new_log args.now.consecutive }
        requires numbered { self.old.book.table.made < 2 ^ 32 - 1 }
        ensures after { self.new ≡ (decided None (plan_of client args.now ends room) boot self.old).0 }
        ensures answer { result ≡ (decided None (plan_of client args.now ends room) boot self.old).1 }
        ensures given { self.new.book.table.made ≤ self.old.book.table.made + 1 }
    {
        let CopyRoom { secret, user, log } = room;
        let plan = Plan {
            client,
            file: ends.file,
            src_off: args.src_off,
            dst_off: args.dst_off,
            count: args.count,
            consecutive: args.consecutive,
            source: ends.source,
            src_id: args.src_id,
            secret,
            user,
        };
        let answer = self.book.accept(plan, log);
        self.note_copy(answer, ends.file, args.dst_off, args.count);
        copy_told(answer, boot, args.consecutive)
    }

    /// What is told of it.
    fn note_copy(&mut self, answer: Acceptance, file: u32, to: u64, count: u64)
        ensures { self.new ≡ record self.old { told = copy_noted answer file to count self.old.told } }
    {
        match answer {
            Acceptance::Accepted(job) => self.note(Note::Accepted {
                job,
                file,
                to,
                count,
            }),
            Acceptance::Overlap(job) => self.note(Note::Overlap { job }),
            Acceptance::Full => {}
            Acceptance::TooFar => {}
        }
    }
}

/// What COPY answers to what became of it.
#[tactic(auto, unfolding(wire_xdr::specs::Words::hyper_bytes))]
fn copy_told(answer: Acceptance, boot: u32, consecutive: bool) -> CopyAnswer
    ensures { result ≡ copy_told answer boot consecutive }
{
    match answer {
        Acceptance::Accepted(name) => CopyAnswer::Done(CopyDone {
            response: WriteResponse {
                callback_id: Some(offload_id(name)),
                count: 0,
                committed: Stability::Unstable,
                verifier: u64::from(boot).to_be_bytes(),
            },
            consecutive,
            synchronous: false,
        }),
        Acceptance::Overlap(_) => CopyAnswer::Refused(Status::OFFLOAD_DENIED),
        Acceptance::Full => CopyAnswer::Refused(Status::DELAY),
        Acceptance::TooFar => CopyAnswer::Refused(Status::FBIG),
    }
}

/// The stateid of a job.
fn offload_id(name: JobName) -> StateId
    ensures { result ≡ offload_id name }
{
    StateId {
        seqid: 1,
        kind: StateId::COPY_OFFLOAD,
        boot: name.boot,
        number: name.number,
    }
}

/// Why a copy isn't taken: the first row that holds.
fn refusal(
    source: &NetLoc,
    carry: &Option<Carried>,
    args: &CopyArgs,
    closed: Option<Status>,
) -> Option<CopyAnswer>
    ensures { result ≡ refusal source.now carry.now args.now closed }
{
    let places = args.sources.as_slice();
    first_of(&[
        refused_if(carry.is_none(), Status::PARTNER_NO_AUTH),
        refused_if(places.is_empty(), Status::NOTSUPP),
        refused_if(!has_address(places), Status::UNION_NOTSUPP),
        refused_if(!is_among(places, source), Status::PARTNER_NOTSUPP),
        refused_if(!allows(carry, source), Status::PARTNER_NO_AUTH),
        not_synchronous(args.synchronous),
        refused_for(closed),
        refused_if(passes_end(args), Status::INVAL),
    ])
}

#[tactic(auto, unfolding(crate::specs::Copying::first_of))]
fn first_of(rows: &[Option<CopyAnswer>]) -> Option<CopyAnswer>
    ensures { result ≡ first_of rows.now }
{
    match rows {
        [] => None,
        [Some(answer), ..] => Some(*answer),
        [None, rest @ ..] => first_of(rest),
    }
}

fn refused_if(holds: bool, status: Status) -> Option<CopyAnswer>
    ensures { result ≡ refused_if holds status }
{
    if holds {
        Some(CopyAnswer::Refused(status))
    } else {
        None
    }
}

/// A copy that ends before its answer isn't offered.
fn not_synchronous(synchronous: bool) -> Option<CopyAnswer>
    ensures { result ≡ not_synchronous synchronous }
{
    if synchronous {
        Some(CopyAnswer::NoReqs {
            consecutive: true,
            synchronous: false,
        })
    } else {
        None
    }
}

fn refused_for(closed: Option<Status>) -> Option<CopyAnswer>
    ensures { result ≡ refused_for closed }
{
    match closed {
        None => None,
        Some(status) => Some(CopyAnswer::Refused(status)),
    }
}

fn has_address(places: &[NetLoc]) -> bool
    ensures { result ≡ list_any is_address places.now }
{
    places.iter().any(|place| is_address(place))
}

fn is_address(place: &NetLoc) -> bool
    ensures { result ≡ is_address place.now }
{
    match place {
        NetLoc::Name(_) => false,
        NetLoc::Url(_) => false,
        NetLoc::Addr { .. } => true,
    }
}

fn is_among(places: &[NetLoc], place: &NetLoc) -> bool
    ensures { result ≡ is_among places.now place.now }
{
    places.iter().any(|p| p.is_same(place))
}

/// Whether the privilege of a context lets copy from a place.
fn allows(carry: &Option<Carried>, place: &NetLoc) -> bool
    ensures { result ≡ allows carry.now place.now }
{
    match carry {
        Some(carried) => is_among(carried.sources.as_slice(), place),
        None => false,
    }
}

/// Whether an offset and the count pass 2^64 - 1.
fn passes_end(args: &CopyArgs) -> bool
    ensures { result ≡ passes_end args.now }
{
    args.src_off.checked_add(args.count).is_none() || args.dst_off.checked_add(args.count).is_none()
}
