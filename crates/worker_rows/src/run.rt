//! Workers over the toy machine, and what is reported of them.

ghost use Rattle.std.specs.Prelude.{◌≡◌, ◌≤◌, length, IfOk};
ghost use Rattle.copy_workers.specs.Workers.{AllUnsent};

use crate::crowd::CrowdLink;
use crate::toy::{StillClock, Toy};
use copy_workers::{Gate, WorkerReport, run_workers};
use core_desk::{Closing, CoreDesk};
use outcome::Mem;
use rpc_msg::{RecordFeed, Watched};
use std::alloc::Global;
use std::fmt::Write;
use std::marker::{Brand, Send};
use std::sync::atomic::AtomicU64;
use std::sync::ledger::{Blank, Ledger};
use std::sync::{Mutex, Wait};
use std::thread::Threads;
use streams::CountDraws;

/// How many records the machine asks for, how many are sent before any is answered, and the turns of each worker.
#[derive(Clone, Copy)]
pub struct Row {
    pub records: u32,
    pub together: u32,
    pub turns: u32,
}

/// One worker.
pub fn one<R: Threads + Wait + Sync>(
    rt: &R,
    alloc: Global,
    row: Row,
    text: &mut String,
) -> Mem<()> {
    let marks = AtomicU64::new(0);
    let mut links = [watched(alloc, &marks, row)?];
    let (landed, turns, given) = (Blank::new(8), Blank::new(8), Blank::new(8));
    work::<Brand, Brand, Brand, R>(rt, alloc, row, landed, turns, given, &mut links, text)
}

/// Two workers.
pub fn two<R: Threads + Wait + Sync>(
    rt: &R,
    alloc: Global,
    row: Row,
    text: &mut String,
) -> Mem<()> {
    let marks = AtomicU64::new(0);
    let mut links = [watched(alloc, &marks, row)?, watched(alloc, &marks, row)?];
    let (landed, turns, given) = (Blank::new(8), Blank::new(8), Blank::new(8));
    work::<Brand, Brand, Brand, R>(rt, alloc, row, landed, turns, given, &mut links, text)
}

/// Four workers.
pub fn four<R: Threads + Wait + Sync>(
    rt: &R,
    alloc: Global,
    row: Row,
    text: &mut String,
) -> Mem<()> {
    let marks = AtomicU64::new(0);
    let mut links = [
        watched(alloc, &marks, row)?,
        watched(alloc, &marks, row)?,
        watched(alloc, &marks, row)?,
        watched(alloc, &marks, row)?,
    ];
    let (landed, turns, given) = (Blank::new(8), Blank::new(8), Blank::new(8));
    work::<Brand, Brand, Brand, R>(rt, alloc, row, landed, turns, given, &mut links, text)
}

fn watched<'a>(alloc: Global, marks: &'a AtomicU64, row: Row) -> Mem<Watched<CrowdLink<'a>>>
    ensures { IfOk result (λ watched. watched.sent ≡ 0) }
{
    let feed = RecordFeed::new(alloc)?;
    Ok(Watched::new(CrowdLink::new(marks, u64::from(row.together)), feed))
}

/// Runs the workers at these links over a new desk.
fn work<L: Ledger + Send, T: Ledger + Send, G: Ledger + Send, R: Threads + Wait + Sync>(
    rt: &R,
    alloc: Global,
    row: Row,
    landed: Blank,
    turns: Blank,
    given: Blank,
    links: &mut [Watched<CrowdLink<'_>>],
    text: &mut String,
) -> Mem<()>
    requires landed { (landed.name ≡ L.name) × (landed.parts ≡ L.parts) × (8 ≤ landed.parts) }
    requires turns { (turns.name ≡ T.name) × (turns.parts ≡ T.parts) × (8 ≤ turns.parts) }
    requires given { (given.name ≡ G.name) × (given.parts ≡ G.parts) × (8 ≤ given.parts) }
    requires some { 1 ≤ length links.old }
    requires few { length links.old ≤ 8 }
    requires unsent { AllUnsent links.old }
{
    let count = links.len();
    let (landed_book, all) = landed.open::<L>();
    let (turns_book, turned) = turns.open::<T>();
    let (given_book, sends) = given.open::<G>();
    let desk = Mutex::new(CoreDesk::new(
        Toy::new(row.records),
        StillClock,
        CountDraws::new(),
        landed_book,
        turns_book,
        given_book,
    ));
    let gate = Gate::new();
    let report = run_workers(
        rt,
        alloc,
        &gate,
        &desk,
        all,
        turned,
        sends,
        links,
        u64::from(row.turns),
    );
    tell(&report, count, text)
}

/// `book BYTES`, and of each worker the bytes that it landed, those that it was given to send, and why it ended.
fn tell<L: Ledger, T: Ledger, G: Ledger>(
    report: &WorkerReport<L, T, G, Closing>,
    count: usize,
    text: &mut String,
) -> Mem<()> {
    let book = report.book;
    write!(text, "book {book}")?;
    for i in 0..count.min(8) {
        let (share, given, end) = (report.shares[i], report.given[i], report.ends[i]);
        write!(text, "; {share} {given} {end:?}")?;
    }
    Ok(())
}
