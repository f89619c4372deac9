//! What came of it.

use crate::making::CHUNK;
use crate::plan::Plan;
use client_copies::Report;
use copy_workers::{WorkerEnd, WorkerReport};
use core_desk::Closing;
use dest_core::DestCore;
use disk_model::MemoryDisk;
use gss_mech::Realm;
use source_core::SourceCore;
use std::alloc::Global;
use std::sync::ledger::Ledger;
use two_ends::Wrong;

/// What workers did together.
#[derive(Clone, Copy)]
pub struct Counts {
    /// How many bytes they landed.
    pub landed: u64,

    /// How many bytes landed, by the book of the desk.
    pub book: u64,

    /// How many of them ended since the desk was closed.
    pub closed: u32,

    /// How many ended since their links were down.
    pub down: u32,
}

/// What was seen of the workers, of their links and of the client.
#[derive(Clone, Copy)]
pub struct Seen {
    pub counts: Counts,

    /// How many calls the client's leave took; None where an answer was awaited still, or a server could be called without being set
    /// up anew.
    pub leave: Option<u32>,

    /// How many READs were put of which no answer was given yet, at the moment at which they were most.
    pub most: u64,

    /// How often an end did what no end does.
    pub faults: u64,

    /// What the client said last of its two copies.
    pub reports: [Option<Report>; 2],
}

/// What came of it.
#[derive(Clone, Copy)]
pub struct Ran {
    pub seen: Seen,

    /// Whether each of the destination's files has the bytes of the source's, where the plan compares them.
    pub same: Option<bool>,
}

/// What workers did together, by what is reported of each.
pub(crate) fn count_all<L: Ledger, T: Ledger, G: Ledger>(
    report: &WorkerReport<L, T, G, Closing>,
) -> Counts {
    let (mut landed, mut closed, mut down) = (0_u64, 0_u32, 0_u32);
    for share in report.shares {
        landed = landed.saturating_add(share);
    }
    for end in report.ends {
        match end {
            WorkerEnd::Closed => closed = closed.saturating_add(1),
            WorkerEnd::Down => down = down.saturating_add(1),
            WorkerEnd::Turns | WorkerEnd::NoLink => {}
        }
    }
    Counts {
        landed,
        book: report.book,
        closed,
        down,
    }
}

/// What came of it, by what was seen and these machines.
pub(crate) fn told(
    alloc: Global,
    plan: &Plan,
    seen: Seen,
    source: &mut SourceCore<MemoryDisk, Realm>,
    dest: &mut DestCore<MemoryDisk, Realm>,
) -> Result<Ran, Wrong> {
    if !plan.compares {
        return Ok(Ran { seen, same: None });
    }
    let mut here = vec![in alloc; 0; CHUNK]?;
    let mut there = vec![in alloc; 0; CHUNK]?;
    let same = are_same(plan, source, dest, &mut here, &mut there);
    Ok(Ran {
        seen,
        same: Some(same),
    })
}

/// Whether each of the destination's files has the bytes of the source's. The room for those of a chunk is lent.
fn are_same(
    plan: &Plan,
    source: &mut SourceCore<MemoryDisk, Realm>,
    dest: &mut DestCore<MemoryDisk, Realm>,
    here: &mut [u8],
    there: &mut [u8],
) -> bool {
    let size = u64::from(plan.size);
    for file in 1..=plan.files() {
        if !have_size(source, dest, file, size)
            || !is_same_file(source, dest, file, size, here, there)
        {
            return false;
        }
    }
    true
}

/// Whether one of the destination's files has the first so many bytes of the source's.
fn is_same_file(
    source: &mut SourceCore<MemoryDisk, Realm>,
    dest: &mut DestCore<MemoryDisk, Realm>,
    file: u32,
    size: u64,
    here: &mut [u8],
    there: &mut [u8],
) -> bool {
    for chunk in 0..1024_u64 {
        let off = chunk * CHUNK as u64;
        if off >= size {
            break;
        }
        if !is_same(source, dest, file, off, here, there) {
            return false;
        }
    }
    true
}

/// Whether the source's file and one of the destination's have so many bytes.
fn have_size(
    source: &SourceCore<MemoryDisk, Realm>,
    dest: &DestCore<MemoryDisk, Realm>,
    file: u32,
    size: u64,
) -> bool {
    let (source, dest) = (source.volume(), dest.volume());
    source.files() >= 1
        && 1 <= file
        && file <= dest.files()
        && source.file(1).size == size
        && dest.file(file).size == size
}

/// Whether one of the destination's files has the bytes of the source's from here on.
fn is_same(
    source: &mut SourceCore<MemoryDisk, Realm>,
    dest: &mut DestCore<MemoryDisk, Realm>,
    file: u32,
    off: u64,
    here: &mut [u8],
    there: &mut [u8],
) -> bool {
    source.volume().files() >= 1
        && 1 <= file
        && file <= dest.volume().files()
        && source.peek(1, off, here).is_ok()
        && dest.peek(file, off, there).is_ok()
        && &*here == &*there
}
