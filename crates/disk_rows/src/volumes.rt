//! Calls of a volume.

ghost use Rattle.std.specs.Prelude.{◌≤◌, ◌<◌, ◌*◌, length, IsTrue};
ghost use Rattle.nfs_base.specs.declared.limits.TheConstants.{MOST_BLOCKS, MOST_FILES};

use crate::told::{add_number, tell, tell_bytes, tell_fault, tell_number, tell_shown};
use blind_disk::BlindDisk;
use block_file::{FormatFault, Volume};
use nfs_base::{MOST_BLOCKS, MOST_FILES};
use outcome::Mem;
use row_text::{bytes, number, word};
use std::alloc::Global;

/// How many bytes are read at most.
const MOST: usize = 64;

/// Whether a volume may have so many files of so many blocks.
pub fn is_volume(files: u32, blocks: u32) -> bool
    ensures files { IsTrue result → 1 ≤ files }
    ensures most_files { IsTrue result → files ≤ MOST_FILES }
    ensures blocks { IsTrue result → 1 ≤ blocks }
    ensures most_blocks { IsTrue result → blocks ≤ MOST_BLOCKS }
    ensures room { IsTrue result → files * blocks ≤ MOST_BLOCKS }
{
    1 <= files
        && files <= MOST_FILES
        && 1 <= blocks
        && blocks <= MOST_BLOCKS
        && files.saturating_mul(blocks) <= MOST_BLOCKS
}

/// Formats a disk, which comes back. One that may have no such volume stays as it is.
pub fn formatted(
    disk: BlindDisk,
    (files, blocks): (u32, u32),
    tag: u64,
) -> Mem<(BlindDisk, Result<(), FormatFault>)> {
    if !is_volume(files, blocks) {
        return Ok((disk, Ok(())));
    }
    match Volume::format(disk, files, blocks, tag)? {
        Ok(disk) => Ok((disk, Ok(()))),
        Err((disk, fault)) => Ok((disk, Err(fault))),
    }
}

/// The calls of a volume, on the last of its files: `boot` and `tag`; `info`, the file's size, its change number and its home;
/// `write OFF BYTES`, `read OFF LEN` and `commit`; and `fuse CALLS`.
pub fn on_volume(
    alloc: Global,
    volume: &mut Volume<BlindDisk>,
    words: &[&str],
    text: &mut String,
) -> Mem<()> {
    let file = volume.files();
    match word(words, 0) {
        "boot" => tell_number(text, "boot ", u64::from(volume.boot()), ""),
        "tag" => tell_number(text, "tag ", volume.tag(), ""),
        "info" => info(volume, text),
        "write" => write(alloc, volume, words, text),
        "read" => read(volume, file, (number(words, 1), number(words, 2)), text),
        "commit" => tell_fault(text, &volume.commit(file)),
        "fuse" => {
            volume.fuse(u64::from(number(words, 1)));
            Ok(())
        }
        _ => tell(text, "no such call"),
    }
}

fn info(volume: &Volume<BlindDisk>, text: &mut String) -> Mem<()> {
    let file = volume.files();
    let info = volume.file(file);
    tell_number(text, "size ", info.size, "")?;
    add_number(text, " change ", info.change)?;
    add_number(text, " home ", u64::from(volume.home(file)))
}

fn write(
    alloc: Global,
    volume: &mut Volume<BlindDisk>,
    words: &[&str],
    text: &mut String,
) -> Mem<()> {
    let file = volume.files();
    let bytes = bytes(alloc, words, 2)?;
    let off = u64::from(number(words, 1));
    tell_fault(text, &volume.write(file, off, &bytes))
}

/// Tells bytes of a file.
pub fn read(
    volume: &mut Volume<BlindDisk>,
    file: u32,
    (off, len): (u32, u32),
    text: &mut String,
) -> Mem<()> {
    if !has_file(volume, file) {
        return tell(text, "no such file");
    }
    let mut room = [0xee; MOST];
    let len = (len as usize).min(MOST);
    match volume.read(file, u64::from(off), &mut room[..len]) {
        Ok(()) => tell_bytes(text, &room[..len]),
        Err(fault) => tell_shown(text, &fault),
    }
}

/// Whether a volume has a file of this number, which isn't the root.
pub fn has_file(volume: &Volume<BlindDisk>, file: u32) -> bool
    ensures no_root { IsTrue result → 1 ≤ file }
    ensures there { IsTrue result → file < length volume.now.volume.files }
{
    1 <= file && file <= volume.files()
}
