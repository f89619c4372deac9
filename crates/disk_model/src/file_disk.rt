ghost use Rattle.std.specs.Prelude.{◌≡◌, ℕ, ◌/◌, ◌<◌, ◌≤◌, ◌^◌};
ghost use Rattle.outcome.specs.Causes.{Rose};
ghost use Rattle.disk_model.specs.declared.fuse.Fuse.TheVariants.{Unset};
ghost use Rattle.disk_model.specs.Elapsed.{untold};

use crate::disk::{Block, CrashDisk, Disk, Io};
use crate::fuse::Fuse;
use std::fs::File;
use std::io;
use std::os::unix::fs::FileExt;

const BLOCK_BYTES: u64 = 4096;

/// A disk over a file. It tells nothing of what the file holds. A crash of it disarms the fuse and
/// leaves the file as it is.
#[derive(Drop)]
pub struct FileDisk {
    file: File,
    blocks: u64,
    fuse: Fuse,
    faults: u64,
    ghost within: { blocks ≤ 2 ^ 52 },
}

impl FileDisk {
    /// A disk of the whole blocks of a file of `len` bytes, which is open for reading and writing.
    pub fn new(file: File, len: u64) -> FileDisk
        ensures size { ⟦<FileDisk as Disk>⟧.size result ≡ len / 4096 }
        ensures fuse { ⟦<FileDisk as Disk>⟧.fuse result ≡ Unset }
        ensures faults { ⟦<FileDisk as Disk>⟧.faults result ≡ 0 }
    {
        FileDisk {
            file,
            blocks: len / BLOCK_BYTES,
            fuse: Fuse::Unset,
            faults: 0,
        }
    }
}

// What a call answers. One that failed is counted.
fn answer(done: io::Result<()>, faults: &mut u64) -> Io
    ensures done { result ≡ Io.Done → faults.new ≡ faults.old }
    ensures failed { result ≡ Io.Failed → Rose faults.old faults.new }
    ensures later { faults.old ≤ faults.new }
{
    match done {
        Ok(()) => Io::Done,
        Err(_) => {
            *faults = faults.saturating_add(1);
            Io::Failed
        }
    }
}

impl Disk for FileDisk {
    ghost Told = { ⊥ };

    ghost size = { λ d. d.blocks };

    ghost timeline = { λ _. untold };

    ghost fuse = { λ d. d.fuse };

    ghost faults = { λ d. d.faults };

    fn blocks(&self) -> u64 {
        self.blocks
    }

    fn moment(&self) -> u64 {
        0
    }

    fn read(&mut self, at: u64, block: &mut Block) -> Io {
        let done = self.file.read_exact_at(block, at * BLOCK_BYTES);
        answer(done, &mut self.faults)
    }

    fn write(&mut self, at: u64, block: &Block) -> Io {
        self.fuse = self.fuse.burn();
        let done = self.file.write_all_at(block, at * BLOCK_BYTES);
        answer(done, &mut self.faults)
    }

    fn sync(&mut self) -> Io {
        self.fuse = self.fuse.burn();
        let done = self.file.sync_all();
        answer(done, &mut self.faults)
    }
}

impl CrashDisk for FileDisk {
    fn fuse(&mut self, calls: u64) {
        self.fuse = self.fuse.set(calls);
    }

    fn stopped(&self) -> bool {
        self.fuse.is_out()
    }

    fn crash(&mut self, _pick: u8) {
        self.fuse = Fuse::Unset;
    }
}
