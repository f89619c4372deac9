//! Calls of a disk.

use crate::told::{add_number, tell, tell_number, tell_rows};
use blind_disk::BlindDisk;
use disk_model::{Block, CrashDisk, Disk, Io};
use outcome::Mem;
use row_text::{number, word};
use std::alloc::Global;

/// A disk of so many blocks, of which the calls fail that the words from a place on number.
pub fn new_disk(alloc: Global, blocks: u32, words: &[&str], at: usize) -> Mem<BlindDisk> {
    let mut failing = Vec::new(alloc);
    for at in at..words.len() {
        failing.push(u64::from(number(words, at)))?;
    }
    Ok(BlindDisk::new(alloc, u64::from(blocks), failing))
}

/// The calls of any disk: `blocks`; `put AT FRONT BACK`, a block of one byte up to its middle and another from there on;
/// `patch AT PLACE BYTE..`, which writes a block again with these bytes at a place; `sync`; `get AT`; `fuse CALLS`;
/// `stopped`; and `crash PICK`.
pub fn on_any<D: CrashDisk>(disk: &mut D, words: &[&str], text: &mut String) -> Mem<()> {
    let first = number(words, 1);
    match word(words, 0) {
        "blocks" => tell_number(text, "", disk.blocks(), " blocks"),
        "put" => put_halves(disk, first, words, text),
        "patch" => patch(disk, first, words, text),
        "sync" => told(text, disk.sync()),
        "get" => get(disk, first, text),
        "fuse" => {
            disk.fuse(u64::from(first));
            Ok(())
        }
        "stopped" => stopped(disk, text),
        "crash" => {
            disk.crash(byte(words, 1));
            Ok(())
        }
        _ => tell(text, "no such call"),
    }
}

/// Tells a call that failed.
pub fn told(text: &mut String, answer: Io) -> Mem<()> {
    match answer {
        Io::Done => Ok(()),
        Io::Failed => tell(text, "failed"),
    }
}

/// The byte that a word is.
fn byte(words: &[&str], at: usize) -> u8 {
    word(words, at).parse::<u8>().unwrap_or(u8::MAX)
}

fn halves(front: u8, back: u8) -> Block {
    let mut block = [back; 4096];
    block[..2048].fill(front);
    block
}

fn stopped<D: CrashDisk>(disk: &D, text: &mut String) -> Mem<()> {
    tell(text, if disk.stopped() { "stopped" } else { "runs" })
}

fn put_halves<D: Disk>(disk: &mut D, at: u32, words: &[&str], text: &mut String) -> Mem<()> {
    put(disk, at, &halves(byte(words, 2), byte(words, 3)), text)
}

fn put<D: Disk>(disk: &mut D, at: u32, block: &Block, text: &mut String) -> Mem<()> {
    if u64::from(at) >= disk.blocks() {
        return tell(text, "no block");
    }
    told(text, disk.write(u64::from(at), block))
}

fn get<D: Disk>(disk: &mut D, at: u32, text: &mut String) -> Mem<()> {
    match block_at(disk, at) {
        Some(block) => tell_rows(text, &block),
        None => tell(text, "unread"),
    }
}

/// A block, where it is read.
fn block_at<D: Disk>(disk: &mut D, at: u32) -> Option<Block> {
    if u64::from(at) >= disk.blocks() {
        return None;
    }
    let mut block = [0xee; 4096];
    match disk.read(u64::from(at), &mut block) {
        Io::Done => Some(block),
        Io::Failed => None,
    }
}

fn patch<D: Disk>(disk: &mut D, at: u32, words: &[&str], text: &mut String) -> Mem<()> {
    match block_at(disk, at) {
        Some(block) => put(disk, at, &patched(block, words), text),
        None => tell(text, "unread"),
    }
}

/// A block with the bytes of the words from the fourth on, at the place that the third one names.
fn patched(mut block: Block, words: &[&str]) -> Block {
    let place = number(words, 2) as usize;
    for at in 3..words.len() {
        if let Some(found) = block.get_mut(place.saturating_add(at - 3)) {
            *found = byte(words, at);
        }
    }
    block
}

/// The calls of a disk in memory besides these: `counts`, of its reads, writes and syncs and of those that wanted memory,
/// and `faults`.
pub fn on_disk(disk: &mut BlindDisk, words: &[&str], text: &mut String) -> Mem<()> {
    match word(words, 0) {
        "counts" => counts(disk, text),
        "faults" => tell_number(text, "", disk.faults(), " faults"),
        _ => on_any(disk, words, text),
    }
}

fn counts(disk: &BlindDisk, text: &mut String) -> Mem<()> {
    let counts = disk.counts();
    tell_number(text, "", counts.reads, "")?;
    add_number(text, " ", counts.writes)?;
    add_number(text, " ", counts.syncs)?;
    add_number(text, " ", disk.starved())
}
