//! Blocks in two homes, under a volume of one file that fills its disk.

ghost use Rattle.std.specs.Prelude.{◌≡◌, ◌≤◌, IfSome};
ghost use Rattle.block_file.specs.Layout.{blocks_of};

use crate::disks::{on_disk, told};
use crate::told::{tell, tell_bytes, tell_number, tell_rows};
use blind_disk::BlindDisk;
use block_file::{GatedCell, Shape, put_table, read_run, with_words, write_run};
use disk_model::{Block, Disk, Io};
use outcome::Mem;
use row_text::{bytes, number, word};
use std::alloc::Global;

/// A table that names home 0 of each block.
const TABLE: Block = [0; 4096];

/// How many bytes are read at most.
const MOST: u64 = 64;

/// The file's newest table, and the home of its table that is in force.
#[derive(Clone, Copy)]
pub struct Runs {
    newest: Block,
    home: u8,
}

impl Runs {
    pub fn new() -> Runs {
        Runs {
            newest: TABLE,
            home: 0,
        }
    }

    /// `run OFF BYTES`, over blocks that are home 0's; `table`, which puts the newest table; `read_run OFF LEN` by the
    /// newest table, and `in_force OFF LEN` by the one that was put last; `cell BYTE`, which puts a block of a byte into
    /// the cell at block 1, and `found`, that cell's block; and the other calls of a disk.
    pub fn on(
        &mut self,
        alloc: Global,
        disk: &mut BlindDisk,
        words: &[&str],
        text: &mut String,
    ) -> Mem<()> {
        match word(words, 0) {
            "run" => self.run(alloc, disk, words, text),
            "table" => told(text, self.table(disk)),
            "read_run" => tell_run(disk, &self.newest, place(words), text),
            "in_force" => in_force(disk, place(words), text),
            "cell" => cell(disk, (number(words, 1) % 256) as u8, text),
            "found" => found(disk, text),
            _ => on_disk(disk, words, text),
        }
    }

    fn run(
        &mut self,
        alloc: Global,
        disk: &mut BlindDisk,
        words: &[&str],
        text: &mut String,
    ) -> Mem<()> {
        let bytes = bytes(alloc, words, 2)?;
        told(
            text,
            self.written(disk, u64::from(number(words, 1)), &bytes),
        )
    }

    fn written<D: Disk>(&mut self, disk: &mut D, off: u64, bytes: &[u8]) -> Io {
        let Some(shape) = shape_of(disk.blocks()) else {
            return Io::Failed;
        };
        let end = off.saturating_add(bytes.len() as u64);
        if end > u64::from(shape.blocks) * 4096 {
            return Io::Failed;
        }
        let done = write_run(disk, shape, &TABLE, &mut self.newest, 1, off, bytes);
        self.newest = with_words(&self.newest, end, 1);
        done
    }

    fn table<D: Disk>(&mut self, disk: &mut D) -> Io {
        let Some(shape) = shape_of(disk.blocks()) else {
            return Io::Failed;
        };
        let mut home = self.home % 2;
        let done = put_table(disk, shape, 1, &mut home, &self.newest);
        self.home = home;
        done
    }
}

/// The place and the length that the words name.
fn place(words: &[&str]) -> (u64, u64) {
    (u64::from(number(words, 1)), u64::from(number(words, 2)))
}

/// The shape of a volume of one file that fills a disk of so many blocks. None where there is none.
fn shape_of(size: u64) -> Option<Shape>
    ensures files { IfSome result (λ shape. shape.files ≡ 1) }
    ensures most { IfSome result (λ shape. shape.blocks ≤ 16384) }
    ensures room { IfSome result (λ shape. blocks_of shape.files shape.blocks ≤ size) }
{
    let blocks = size.checked_sub(7)? / 2;
    if blocks == 0 || blocks > 16384 {
        return None;
    }
    Some(Shape {
        files: 1,
        blocks: blocks as u32,
    })
}

/// Tells bytes of the file, out of the homes that a table names.
fn tell_run<D: Disk>(
    disk: &mut D,
    table: &Block,
    (off, len): (u64, u64),
    text: &mut String,
) -> Mem<()> {
    let Some(shape) = shape_of(disk.blocks()) else {
        return tell(text, "no volume");
    };
    let mut room = [0xee; MOST as usize];
    if len > MOST || off.saturating_add(len) > u64::from(shape.blocks) * 4096 {
        return tell(text, "too far");
    }
    match read_run(disk, shape, table, 1, off, &mut room[..len as usize]) {
        Io::Done => tell_bytes(text, &room[..len as usize]),
        Io::Failed => tell(text, "failed"),
    }
}

/// Tells bytes of the file as the table says that is in force.
fn in_force<D: Disk>(disk: &mut D, place: (u64, u64), text: &mut String) -> Mem<()> {
    let mut table = TABLE;
    if disk.blocks() < 7 || GatedCell::read(disk, 4, &mut table).is_none() {
        return tell(text, "no table");
    }
    tell_run(disk, &table, place, text)
}

/// Puts a block of a byte into the cell at block 1, and tells how that ended and the home that is then in force.
fn cell<D: Disk>(disk: &mut D, byte: u8, text: &mut String) -> Mem<()> {
    let mut block = TABLE;
    if disk.blocks() < 4 {
        return tell(text, "no cell");
    }
    let Some(mut cell) = GatedCell::read(disk, 1, &mut block) else {
        return tell(text, "unread");
    };
    if cell.at != 1 || disk.blocks() < 4 {
        return tell(text, "another cell");
    }
    told(text, cell.put(disk, &[byte; 4096]))?;
    tell_number(text, "home ", u64::from(cell.home), "")
}

/// Tells the block of the cell at block 1.
fn found<D: Disk>(disk: &mut D, text: &mut String) -> Mem<()> {
    let mut block = [0xee; 4096];
    if disk.blocks() < 4 || GatedCell::read(disk, 1, &mut block).is_none() {
        return tell(text, "unread");
    }
    tell_rows(text, &block)
}
