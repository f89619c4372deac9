//! What stands while a line is carried out.

use crate::disks::new_disk;
use crate::fuses::burnt;
use crate::runs::Runs;
use crate::stops::{Crash, Stops};
use crate::told::{tell, tell_fault};
use crate::volumes::{formatted, on_volume};
use blind_disk::BlindDisk;
use block_file::{OpenFault, Volume};
use outcome::Mem;
use row_text::{number, word};
use std::alloc::Global;

/// How many blocks the disk of a server has.
const SERVED_BLOCKS: u32 = 64;

/// The tag of a server's volume.
const SERVED_TAG: u64 = 7;

/// A disk, or the volume that was opened on it.
#[derive(Drop)]
enum Stand {
    Nothing,
    Disk(BlindDisk),
    Volume(Volume<BlindDisk>),
}

/// What stands, what is known of a file by its homes, and of stops where a server has the volume.
#[derive(Drop)]
pub struct Scene {
    stand: Stand,
    runs: Runs,
    stops: Option<Stops>,
}

impl Scene {
    pub fn new() -> Scene {
        Scene {
            stand: Stand::Nothing,
            runs: Runs::new(),
            stops: None,
        }
    }

    /// `disk BLOCKS FAILING..`, `format FILES BLOCKS TAG`, `open`, and `close`, which hands the disk back;
    /// `volume FILES BLOCKS FAILING..`, which formats and opens a disk of which the calls with these numbers fail, and gives
    /// the volume to a server until the line ends; a fuse by itself; and the calls of a disk, of blocks in two homes, of a
    /// volume, and of a server on its volume.
    pub fn step(&mut self, alloc: Global, words: &[&str], text: &mut String) -> Mem<()> {
        match word(words, 0) {
            "disk" => self.put_disk(alloc, number(words, 1), words, 2),
            "volume" => self.serve(alloc, words, text),
            "format" => self.format(words, u64::from(number(words, 3)), text),
            "open" => self.open(alloc, text),
            "close" => self.close(),
            "unset" | "set" | "burning" | "out" => burnt(words, text),
            _ => self.call(alloc, words, text),
        }
    }

    /// A call of what stands.
    fn call(&mut self, alloc: Global, words: &[&str], text: &mut String) -> Mem<()> {
        match &mut self.stand {
            Stand::Nothing => tell(text, "nothing stands"),
            Stand::Disk(disk) => self.runs.on(alloc, disk, words, text),
            Stand::Volume(volume) => match &mut self.stops {
                None => on_volume(alloc, volume, words, text),
                Some(stops) => {
                    let crash = stops.step(alloc, volume, words, text)?;
                    self.restart(alloc, crash, text)
                }
            },
        }
    }

    /// What stood. Nothing stands then.
    fn take(&mut self) -> Stand {
        std::mem::replace(&mut self.stand, Stand::Nothing)
    }

    /// Puts a disk, of which the calls fail that the words from a place on number.
    fn put_disk(&mut self, alloc: Global, blocks: u32, words: &[&str], at: usize) -> Mem<()> {
        self.stand = Stand::Disk(new_disk(alloc, blocks, words, at)?);
        Ok(())
    }

    fn format(&mut self, words: &[&str], tag: u64, text: &mut String) -> Mem<()> {
        let Stand::Disk(disk) = self.take() else {
            return tell(text, "no disk");
        };
        let (disk, answer) = formatted(disk, (number(words, 1), number(words, 2)), tag)?;
        self.stand = Stand::Disk(disk);
        tell_fault(text, &answer)
    }

    fn open(&mut self, alloc: Global, text: &mut String) -> Mem<()> {
        let Stand::Disk(disk) = self.take() else {
            return tell(text, "no disk");
        };
        let (stand, answer) = opened(alloc, disk)?;
        self.stand = stand;
        tell_fault(text, &answer)
    }

    fn close(&mut self) -> Mem<()> {
        if let Stand::Volume(volume) = self.take() {
            self.stand = Stand::Disk(volume.hand_back());
        }
        Ok(())
    }

    /// Gives a server a volume.
    fn serve(&mut self, alloc: Global, words: &[&str], text: &mut String) -> Mem<()> {
        self.put_disk(alloc, SERVED_BLOCKS, words, 3)?;
        self.stops = Some(Stops::new());
        self.format(words, SERVED_TAG, text)?;
        self.open(alloc, text)
    }

    /// The machine of a server crashes where a crash is to come, and its volume is opened anew.
    fn restart(&mut self, alloc: Global, crash: Option<Crash>, text: &mut String) -> Mem<()> {
        let Some(crash) = crash else {
            return Ok(());
        };
        self.close()?;
        if let Stand::Disk(disk) = &mut self.stand {
            crash.strike(disk);
        }
        self.stops = Some(Stops::new());
        self.open(alloc, text)?;
        match &self.stand {
            Stand::Volume(volume) => crash.tell(volume, text),
            Stand::Nothing | Stand::Disk(_) => Ok(()),
        }
    }
}

/// The volume on a disk, or the disk and why it holds none.
fn opened(alloc: Global, disk: BlindDisk) -> Mem<(Stand, Result<(), OpenFault>)> {
    match Volume::open(alloc, disk)? {
        Ok(volume) => Ok((Stand::Volume(volume), Ok(()))),
        Err((disk, fault)) => Ok((Stand::Disk(disk), Err(fault))),
    }
}
