ghost use Rattle.std.specs.Prelude.{◌≡◌, ◌↔◌, ℕ, ◌+◌, ◌<◌, ◌≤◌, length, true, IsTrue, IsOk, IsErr, if◌then◌else◌};
ghost use Rattle.outcome.specs.Causes.{Rose};
ghost use Rattle.disk_model.specs.declared.fuse.Fuse.TheVariants.{Unset};
ghost use Rattle.disk_model.specs.Disk.{MayLeave, IsSettled, Writes, Syncs, zero_block};
ghost use Rattle.disk_model.specs.Elapsed.{present, contents, crash_moment, burnt, set_to, IsOut, Elapses, StopsBefore};
ghost use Rattle.disk_model.specs.Pick.{left_by};
ghost use Rattle.outcome.specs.Plan.{counted};

use crate::disk::{Block, CrashDisk, Disk, Io};
use crate::fuse::Fuse;
use crate::store::Store;
use outcome::{Mem, Planned};
use std::alloc::Global;

/// How many calls of each kind a disk was given. A count stops at the end of its type.
#[derive(Clone, Copy, Debug, PartialEq, Eq)]
pub struct Counts {
    pub reads: u64,
    pub writes: u64,
    pub syncs: u64,
}

/// A disk in memory, which tells what it holds. It keeps the blocks that were written, and its writes
/// and syncs since the last crash. It fails at planned calls and where memory is refused; a call that
/// fails changes no block.
#[derive(Drop)]
pub struct MemoryDisk {
    blocks: u64,
    store: Store,
    fuse: Fuse,
    stop: usize,
    plan: Planned,
    counts: Counts,
    starved: u64,
    ghost stop_within: { stop ≤ length store.calls.items },
}

impl MemoryDisk {
    ghost use Rattle.disk_model.specs.MemoryDisk.{size_of, timeline_of, fuse_of, plan_of, counts_of, starved_of};

    /// A disk of this many blocks of zeros. `failing` has the numbers of the calls that are to fail, in
    /// any order; reads, writes and syncs are counted together, and the first call is number 1.
    pub fn new(alloc: Global, blocks: u64, failing: Vec<u64>) -> MemoryDisk
        ensures size { size_of result ≡ blocks }
        ensures zeros { (b : ℕ) → contents (timeline_of result) b ≡ zero_block }
        ensures settled { IsSettled (present (timeline_of result)) }
        ensures fuse { fuse_of result ≡ Unset }
        ensures plan { plan_of result ≡ record { calls = 0; failing = failing.items } }
        ensures counts { counts_of result ≡ record { reads = 0; writes = 0; syncs = 0 } }
        ensures starved { starved_of result ≡ 0 }
    {
        MemoryDisk {
            blocks,
            store: Store::new(alloc),
            fuse: Fuse::Unset,
            stop: 0,
            plan: Planned::new(failing),
            counts: Counts {
                reads: 0,
                writes: 0,
                syncs: 0,
            },
            starved: 0,
        }
    }

    /// How many calls of each kind were made.
    pub fn counts(&self) -> Counts
        ensures { result ≡ counts_of self.now }
    {
        self.counts
    }

    /// How many calls failed since memory was refused. The count stops at the end of its type.
    pub fn starved(&self) -> u64
        ensures { result ≡ starved_of self.now }
    {
        self.starved
    }
}

impl Disk for MemoryDisk {
    ghost use Rattle.disk_model.specs.MemoryDisk.{size_of, timeline_of, fuse_of, faults_of, starved_of, counts_of, Answers};

    ghost Told = { Unit {0} };

    ghost size = { size_of };

    ghost timeline = { timeline_of };

    ghost fuse = { fuse_of };

    ghost faults = { faults_of };

    fn blocks(&self) -> u64 {
        self.blocks
    }

    fn moment(&self) -> u64 {
        self.store.moment() as u64
    }

    fn read(&mut self, at: u64, block: &mut Block) -> Io
        ensures bytes { result ≡ Io.Done → block.new ≡ contents (timeline_of self.old) at }
        ensures same { timeline_of self.new ≡ timeline_of self.old }
        ensures size { size_of self.new ≡ size_of self.old }
        ensures fuse { fuse_of self.new ≡ fuse_of self.old }
        ensures faults { faults_of self.old ≤ faults_of self.new }
        ensures cause { result ≡ Io.Failed → Rose (faults_of self.old) (faults_of self.new) }
        ensures answer { Answers self.old self.new result }
        ensures never_starved { starved_of self.new ≡ starved_of self.old }
        ensures counts { counts_of self.new ≡ record (counts_of self.old) { reads = counted (counts_of self.old).reads } }
    {
        self.counts.reads = self.counts.reads.saturating_add(1);
        if self.plan.fails() {
            return Io::Failed;
        }
        self.store.read(at, block);
        Io::Done
    }

    fn write(&mut self, at: u64, block: &Block) -> Io
        ensures written { Writes at block.now result (present (timeline_of self.old)) (present (timeline_of self.new)) }
        ensures time { Elapses (fuse_of self.old) (fuse_of self.new) (timeline_of self.old) (timeline_of self.new) }
        ensures soon { (timeline_of self.new).latest ≤ (timeline_of self.old).latest + 1 }
        ensures size { size_of self.new ≡ size_of self.old }
        ensures fuse { fuse_of self.new ≡ burnt (fuse_of self.old) }
        ensures faults { faults_of self.old ≤ faults_of self.new }
        ensures cause { result ≡ Io.Failed → Rose (faults_of self.old) (faults_of self.new) }
        ensures answer { Answers self.old self.new result }
        ensures opened { result ≡ Io.Done → (present (timeline_of self.new)).is_open at ≡ true }
        ensures failed { result ≡ Io.Failed → present (timeline_of self.new) ≡ present (timeline_of self.old) }
        ensures stop { StopsBefore (fuse_of self.old) (fuse_of self.new) (timeline_of self.old) (timeline_of self.new) }
        ensures counts { counts_of self.new ≡ record (counts_of self.old) { writes = counted (counts_of self.old).writes } }
    {
        self.counts.writes = self.counts.writes.saturating_add(1);
        burn(&mut self.fuse, &mut self.stop, self.store.moment());
        if self.plan.fails() {
            return Io::Failed;
        }
        let written = self.store.write(at, block);
        answer(written, &mut self.starved)
    }

    fn sync(&mut self) -> Io
        ensures synced { Syncs result (present (timeline_of self.old)) (present (timeline_of self.new)) }
        ensures time { Elapses (fuse_of self.old) (fuse_of self.new) (timeline_of self.old) (timeline_of self.new) }
        ensures soon { (timeline_of self.new).latest ≤ (timeline_of self.old).latest + 1 }
        ensures size { size_of self.new ≡ size_of self.old }
        ensures fuse { fuse_of self.new ≡ burnt (fuse_of self.old) }
        ensures faults { faults_of self.old ≤ faults_of self.new }
        ensures cause { result ≡ Io.Failed → Rose (faults_of self.old) (faults_of self.new) }
        ensures answer { Answers self.old self.new result }
        ensures failed { result ≡ Io.Failed → present (timeline_of self.new) ≡ present (timeline_of self.old) }
        ensures stop { StopsBefore (fuse_of self.old) (fuse_of self.new) (timeline_of self.old) (timeline_of self.new) }
        ensures counts { counts_of self.new ≡ record (counts_of self.old) { syncs = counted (counts_of self.old).syncs } }
    {
        self.counts.syncs = self.counts.syncs.saturating_add(1);
        burn(&mut self.fuse, &mut self.stop, self.store.moment());
        if self.plan.fails() {
            return Io::Failed;
        }
        let synced = self.store.sync();
        answer(synced, &mut self.starved)
    }
}

impl CrashDisk for MemoryDisk {
    ghost use Rattle.disk_model.specs.MemoryDisk.{size_of, timeline_of, fuse_of, faults_of, plan_of, counts_of, starved_of};

    fn fuse(&mut self, calls: u64)
        ensures fuse { fuse_of self.new ≡ set_to (fuse_of self.old) calls }
        ensures same { timeline_of self.new ≡ timeline_of self.old }
        ensures size { size_of self.new ≡ size_of self.old }
        ensures faults { faults_of self.new ≡ faults_of self.old }
        ensures plan { plan_of self.new ≡ plan_of self.old }
        ensures counts { counts_of self.new ≡ counts_of self.old }
        ensures starved { starved_of self.new ≡ starved_of self.old }
    {
        self.fuse = self.fuse.set(calls);
    }

    fn stopped(&self) -> bool {
        self.fuse.is_out()
    }

    fn crash(&mut self, pick: u8)
        ensures left { MayLeave
            ((timeline_of self.old).state (crash_moment (fuse_of self.old) (timeline_of self.old)))
            (contents (timeline_of self.new)) }
        ensures picked { (b : ℕ) → contents (timeline_of self.new) b
            ≡ left_by pick (timeline_of self.old) (crash_moment (fuse_of self.old) (timeline_of self.old)) b }
        ensures settled { IsSettled (present (timeline_of self.new)) }
        ensures fuse { fuse_of self.new ≡ Unset }
        ensures size { size_of self.new ≡ size_of self.old }
        ensures faults { faults_of self.new ≡ faults_of self.old }
        ensures plan { plan_of self.new ≡ plan_of self.old }
        ensures counts { counts_of self.new ≡ counts_of self.old }
        ensures starved { starved_of self.new ≡ starved_of self.old }
    {
        let until = if self.fuse.is_out() {
            self.stop
        } else {
            self.store.moment()
        };
        self.stop = 0;
        self.fuse = Fuse::Unset;
        self.store.crash(until, pick);
    }
}

// Burns the fuse by one call. Where it runs out, the machine stops at this moment.
fn burn(fuse: &mut Fuse, stop: &mut usize, moment: usize)
    ensures fuse { fuse.new ≡ burnt fuse.old }
    ensures stays { IsOut fuse.old → stop.new ≡ stop.old }
    ensures stops { (IsOut fuse.old → ⊥) → IsOut fuse.new → stop.new ≡ moment }
    ensures within { stop.old ≤ moment → stop.new ≤ moment }
{
    let was_out = fuse.is_out();
    *fuse = fuse.burn();
    if fuse.is_out() && !was_out {
        *stop = moment;
    }
}

// What a call answers. Want of memory is counted.
fn answer(done: Mem<()>, starved: &mut u64) -> Io
    ensures done { result ≡ Io.Done → IsOk done × (starved.new ≡ starved.old) }
    ensures failed { result ≡ Io.Failed → IsErr done × (starved.new ≡ counted starved.old) }
    ensures later { starved.old ≤ starved.new }
{
    match done {
        Ok(()) => Io::Done,
        Err(_) => {
            *starved = starved.saturating_add(1);
            Io::Failed
        }
    }
}
