//! What the runner of a server knows of stops of its machine.

use crate::served::make;
use crate::told::tell_number;
use crate::volumes::{has_file, read};
use blind_disk::BlindDisk;
use block_file::Volume;
use disk_model::CrashDisk;
use outcome::Mem;
use row_text::{number, word};
use server_volume::{CallList, Used};
use std::alloc::Global;
use volume_stops::{Kept, Pending};

/// The commit that a crash may find unfinished, and the pick of the crash that the fuse ends in.
#[derive(Clone, Copy)]
pub struct Stops {
    pending: Option<Pending>,
    pick: u8,
}

/// A crash, with the commit that it may find unfinished.
#[derive(Clone, Copy)]
pub struct Crash {
    pending: Option<Pending>,
    pick: u8,
}

impl Stops {
    pub fn new() -> Stops {
        Stops {
            pending: None,
            pick: 0,
        }
    }

    /// One step of a server: `fuse CALLS PICK`, `crash PICK`, `read FILE OFF LEN`, or calls that are noted. A crash is to come
    /// behind it where one is answered.
    pub fn step(
        &mut self,
        alloc: Global,
        volume: &mut Volume<BlindDisk>,
        words: &[&str],
        text: &mut String,
    ) -> Mem<Option<Crash>> {
        match word(words, 0) {
            "fuse" => {
                volume.fuse(u64::from(number(words, 1)));
                self.pick = pick(words, 2);
                Ok(None)
            }
            "crash" => Ok(Some(Crash {
                pending: self.pending,
                pick: pick(words, 1),
            })),
            "read" => {
                read(
                    volume,
                    number(words, 1),
                    (number(words, 2), number(words, 3)),
                    text,
                )?;
                Ok(None)
            }
            _ => self.calls(alloc, volume, words, text),
        }
    }

    /// A step that makes calls on the volume.
    fn calls(
        &mut self,
        alloc: Global,
        volume: &mut Volume<BlindDisk>,
        words: &[&str],
        text: &mut String,
    ) -> Mem<Option<Crash>> {
        let mut used = CallList::new(alloc)?;
        make(alloc, volume, words, &mut used, text)?;
        Ok(self.behind(volume.stopped(), used.as_slice()))
    }

    /// What is known behind calls. Where the machine stopped in them, it crashes.
    fn behind(&mut self, stopped: bool, used: &[Used]) -> Option<Crash> {
        if stopped {
            return Some(Crash {
                pending: Pending::within(self.pending, used),
                pick: self.pick,
            });
        }
        self.pending = Pending::behind(self.pending, used);
        None
    }
}

impl Crash {
    pub fn strike(self, disk: &mut BlindDisk) {
        disk.crash(self.pick);
    }

    /// Tells the number of the opening behind it, and what it kept of a commit.
    pub fn tell(self, volume: &Volume<BlindDisk>, text: &mut String) -> Mem<()> {
        let kept = match self.kept(volume) {
            Kept::Old => " old",
            Kept::New => " new",
            Kept::Nothing => " none",
        };
        tell_number(text, "crash ", u64::from(volume.boot()), kept)
    }

    fn kept(self, volume: &Volume<BlindDisk>) -> Kept {
        match self.pending {
            None => Kept::Nothing,
            Some(pending) => {
                if has_file(volume, pending.file) {
                    pending.kept(volume.home(pending.file))
                } else {
                    Kept::Nothing
                }
            }
        }
    }
}

/// The pick that a word is.
fn pick(words: &[&str], at: usize) -> u8 {
    word(words, at).parse::<u8>().unwrap_or(0)
}
