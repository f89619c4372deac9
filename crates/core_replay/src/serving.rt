//! A server's core in a case.

use crate::draws::CaseDraws;
use crate::event::Event;
use crate::lines::long;
use crate::outbox_lines::{tell_hex, tell_step};
use crate::player::{Core, Player};
use crate::server::{Server, new_server};
use crate::setting::realm;
use crate::volume::new_disk;
use block_file::FileInfo;
use disk_model::{Disk, MemoryDisk};
use gss_mech::{Mechanism, Realm};
use outcome::Mem;
use row_text::{number, word};
use std::alloc::Global;
use std::fmt::Write;

/// The server of a case, and what it draws from.
#[derive(Drop)]
pub struct Serving<D: Disk, M> {
    server: Server<D, M>,
    draws: CaseDraws,
}

impl Player for Serving<MemoryDisk, Realm> {
    fn begin(alloc: Global, core: Core, words: &[&str]) -> Mem<Option<Serving<MemoryDisk, Realm>>> {
        new_serving(alloc, core, new_disk(alloc), realm(alloc)?, words)
    }

    fn event(&mut self, alloc: Global, words: &[&str], text: &mut String) -> Mem<bool> {
        self.take(alloc, words, text)
    }

    fn held(&mut self, words: &[&str], text: &mut String) -> Mem<()> {
        self.tell_held(words, text)
    }
}

impl<D: Disk + Drop, M: Mechanism> Serving<D, M> {
    /// Makes the step of an event and adds the lines of its outcome, and tells whether there is such a step.
    fn take(&mut self, alloc: Global, words: &[&str], text: &mut String) -> Mem<bool> {
        let Some(event) = Event::from_words(alloc, words) else {
            return Ok(false);
        };
        let given = self.server.step(alloc, &event, &mut self.draws)?;
        tell_step(text, self.server.speaker(&event), given)
    }

    /// Adds what the server tells of a file, or what stands in it.
    fn tell_held(&mut self, words: &[&str], text: &mut String) -> Mem<()> {
        let file = number(words, 1);
        if word(words, 0) == "file" {
            return tell_file(text, file, self.server.info(file));
        }
        let off = long(words, 2);
        tell_bytes(text, file, off, self.server.bytes(file, off))
    }
}

/// The server of a case over a disk, and the draws of the case.
fn new_serving<D: Disk + Drop, M: Mechanism + Drop>(
    alloc: Global,
    core: Core,
    disk: D,
    mech: M,
    words: &[&str],
) -> Mem<Option<Serving<D, M>>> {
    let draws = CaseDraws::of_case(word(words, 1));
    match new_server(alloc, core, disk, mech, words)? {
        Some(server) => Ok(Some(Serving { server, draws })),
        None => Ok(None),
    }
}

fn tell_file(text: &mut String, file: u32, info: Option<FileInfo>) -> Mem<()> {
    let Some(info) = info else {
        return Ok(text.push_str("no file\n")?);
    };
    let (size, change) = (info.size, info.change);
    Ok(writeln!(text, "file {file} {size} {change}")?)
}

/// Adds 32 bytes of a file.
fn tell_bytes(text: &mut String, file: u32, off: u64, bytes: Option<[u8; 32]>) -> Mem<()> {
    let Some(bytes) = bytes else {
        return Ok(text.push_str("unread\n")?);
    };
    write!(text, "peek {file} {off} ")?;
    tell_hex(text, &bytes)?;
    Ok(text.push_str("\n")?)
}
