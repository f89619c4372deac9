ghost use Rattle.std.specs.Prelude.{◌≡◌, ◌≤◌};
ghost use Rattle.outcome.specs.Causes.{Rose};
ghost use Rattle.disk_model.specs.Elapsed.{untold};
ghost use Rattle.disk_model.specs.MemoryDisk.{size_of, fuse_of};

use disk_model::{Block, Counts, CrashDisk, Disk, Io, MemoryDisk};
use std::alloc::Global;

/// A disk in memory that tells nothing of what it holds, so that whatever that is may be opened.
#[derive(Drop)]
pub struct BlindDisk {
    inner: MemoryDisk,
    faults: u64,
}

impl BlindDisk {
    /// A disk of this many blocks of zeros, of which the calls with these numbers fail.
    pub fn new(alloc: Global, blocks: u64, failing: Vec<u64>) -> BlindDisk {
        BlindDisk {
            inner: MemoryDisk::new(alloc, blocks, failing),
            faults: 0,
        }
    }

    /// How many calls failed.
    pub fn faults(&self) -> u64 {
        self.faults
    }

    /// How many calls of each kind it was given.
    pub fn counts(&self) -> Counts {
        self.inner.counts()
    }

    /// How many calls failed since memory was refused.
    pub fn starved(&self) -> u64 {
        self.inner.starved()
    }
}

// What a call answered. One that failed is counted.
fn count(answer: Io, faults: &mut u64) -> Io
    ensures same { result ≡ answer }
    ensures later { faults.old ≤ faults.new }
    ensures cause { answer ≡ Io.Failed → Rose faults.old faults.new }
{
    if answer == Io::Failed {
        *faults = faults.saturating_add(1);
    }
    answer
}

impl Disk for BlindDisk {
    ghost Told = { ⊥ };

    ghost size = { λ d. size_of d.inner };

    ghost timeline = { λ _. untold };

    ghost fuse = { λ d. fuse_of d.inner };

    ghost faults = { λ d. d.faults };

    fn blocks(&self) -> u64 {
        self.inner.blocks()
    }

    fn moment(&self) -> u64 {
        self.inner.moment()
    }

    fn read(&mut self, at: u64, block: &mut Block) -> Io {
        let answer = self.inner.read(at, block);
        count(answer, &mut self.faults)
    }

    fn write(&mut self, at: u64, block: &Block) -> Io {
        let answer = self.inner.write(at, block);
        count(answer, &mut self.faults)
    }

    fn sync(&mut self) -> Io {
        let answer = self.inner.sync();
        count(answer, &mut self.faults)
    }
}

impl CrashDisk for BlindDisk {
    fn fuse(&mut self, calls: u64) {
        self.inner.fuse(calls);
    }

    fn stopped(&self) -> bool {
        self.inner.stopped()
    }

    fn crash(&mut self, pick: u8) {
        self.inner.crash(pick);
    }
}
