ghost use Rattle.std.specs.Prelude.{◌≡◌, ◌≢◌, ℕ, ◌+◌, ◌-◌, ◌*◌, ◌<◌, ◌≤◌, length, take, drop, IfSome, None};
ghost use Rattle.outcome.specs.Causes.{Rose};
ghost use Rattle.disk_model.specs.declared.fuse.Fuse.TheVariants.{Unset};
ghost use Rattle.disk_model.specs.Elapsed.{contents};
ghost use Rattle.block_file.specs.Layout.{data_at, blocks_of, home_in};
ghost use Rattle.block_file.specs.Lists.{put_in};
ghost use Rattle.block_file.specs.Stored.{blocks_by};
ghost use Rattle.block_file.specs.Blocks.{place_of, next_place, InShape, KeepsSafe};

use crate::blocks::{data_at, home_in, write_block};
use crate::shape::Shape;
use crate::tables::{put_part, set_home};
use disk_model::{Block, Disk, Io};

/// Fills `out` with a file's bytes from a place on, out of the homes that a table names: one call of the
/// disk for each block.
pub fn read_run<D: Disk>(
    disk: &mut D,
    shape: Shape,
    table: &Block,
    file: u32,
    off: u64,
    out: &mut [u8],
) -> Io
    requires some { 1 ≤ file }
    requires there { file ≤ shape.files }
    requires fits { off + length out.old ≤ shape.blocks * 4096 }
    requires room { blocks_of shape.files shape.blocks ≤ D.size disk.old }
    ensures bytes { D.Told → result ≡ Io.Done
        → out.new ≡ take (length out.old) (drop off (blocks_by shape.files shape.blocks table.now (contents (D.timeline disk.old)) file)) }
    ensures len { length out.new ≡ length out.old }
    ensures same { D.Told → D.timeline disk.new ≡ D.timeline disk.old }
    ensures size { D.size disk.new ≡ D.size disk.old }
    ensures fuse { D.fuse disk.new ≡ D.fuse disk.old }
    ensures faults { D.faults disk.old ≤ D.faults disk.new }
    ensures cause { result ≡ Io.Failed → Rose (D.faults disk.old) (D.faults disk.new) }
{
    let _count = disk.blocks();
    let mut done = 0;
    while done < out.len() {
        let place = off + done as u64;
        let number = (place / 4096) as u32;
        let from = (place % 4096) as usize;
        let count = (4096 - from).min(out.len() - done);
        let part = &mut out[done..done + count];
        match read_part(disk, shape, table, file, number, from, part) {
            Io::Failed => return Io::Failed,
            Io::Done => {}
        }
        done += count;
    }
    Io::Done
}

// Reads the bytes of a block from `from` on. A whole block is read into its place.
fn read_part<D: Disk>(
    disk: &mut D,
    shape: Shape,
    table: &Block,
    file: u32,
    number: u32,
    from: usize,
    out: &mut [u8],
) -> Io
    requires within { InShape shape file number }
    requires fits { from + length out.old ≤ 4096 }
    requires room { blocks_of shape.files shape.blocks ≤ D.size disk.old }
    ensures bytes { D.Told → result ≡ Io.Done
        → out.new ≡ take (length out.old) (drop from (contents (D.timeline disk.old) (place_of shape table.now file number))) }
    ensures len { length out.new ≡ length out.old }
    ensures same { D.Told → D.timeline disk.new ≡ D.timeline disk.old }
    ensures size { D.size disk.new ≡ D.size disk.old }
    ensures fuse { D.fuse disk.new ≡ D.fuse disk.old }
    ensures faults { D.faults disk.old ≤ D.faults disk.new }
    ensures cause { result ≡ Io.Failed → Rose (D.faults disk.old) (D.faults disk.new) }
{
    let _count = disk.blocks();
    if let Some(whole) = out.as_mut_array() {
        return read_block(disk, shape, table, file, number, whole);
    }
    let mut block = [0; 4096];
    match read_block(disk, shape, table, file, number, &mut block) {
        Io::Failed => return Io::Failed,
        Io::Done => {}
    }
    out.copy_from_slice(&block[from..from + out.len()]);
    Io::Done
}

// Reads a block from the home that the table names.
fn read_block<D: Disk>(
    disk: &mut D,
    shape: Shape,
    table: &Block,
    file: u32,
    number: u32,
    block: &mut Block,
) -> Io
    requires within { InShape shape file number }
    requires room { blocks_of shape.files shape.blocks ≤ D.size disk.old }
    ensures bytes { D.Told → result ≡ Io.Done → block.new ≡ contents (D.timeline disk.old) (place_of shape table.now file number) }
    ensures same { D.Told → D.timeline disk.new ≡ D.timeline disk.old }
    ensures size { D.size disk.new ≡ D.size disk.old }
    ensures fuse { D.fuse disk.new ≡ D.fuse disk.old }
    ensures faults { D.faults disk.old ≤ D.faults disk.new }
    ensures cause { result ≡ Io.Failed → Rose (D.faults disk.old) (D.faults disk.new) }
{
    let at = data_at(shape, file, number, home_in(table, number));
    disk.read(at, block)
}

/// Writes bytes of a file from a place on, each block to the home that the safe table doesn't name. An
/// edge block's other bytes are taken from where `newest` has it, which then names the home that was
/// written. A crash at any moment leaves what was safe.
pub fn write_run<D: Disk>(
    disk: &mut D,
    shape: Shape,
    table: &Block,
    newest: &mut Block,
    file: u32,
    off: u64,
    bytes: &[u8],
) -> Io
    requires some { 1 ≤ file }
    requires there { file ≤ shape.files }
    requires fits { off + length bytes.now ≤ shape.blocks * 4096 }
    requires room { blocks_of shape.files shape.blocks ≤ D.size disk.old }
    ensures safe { D.Told → KeepsSafe shape table.now file (D.fuse disk.old) (D.fuse disk.new) (D.timeline disk.old) (D.timeline disk.new) }
    ensures written { D.Told → result ≡ Io.Done
        → blocks_by shape.files shape.blocks newest.new (contents (D.timeline disk.new)) file
        ≡ put_in off bytes.now (blocks_by shape.files shape.blocks newest.old (contents (D.timeline disk.old)) file) }
    ensures others { D.Told → (j b h : ℕ) → InShape shape j b → h ≤ 1 → j ≢ file
        → contents (D.timeline disk.new) (data_at shape.files shape.blocks j b h) ≡ contents (D.timeline disk.old) (data_at shape.files shape.blocks j b h) }
    ensures words { take 16 newest.new ≡ take 16 newest.old }
    ensures size { D.size disk.new ≡ D.size disk.old }
    ensures unset { D.fuse disk.old ≡ Unset → D.fuse disk.new ≡ Unset }
    ensures faults { D.faults disk.old ≤ D.faults disk.new }
    ensures cause { result ≡ Io.Failed → Rose (D.faults disk.old) (D.faults disk.new) }
{
    let _start = disk.blocks();
    let mut done = 0;
    while done < bytes.len() {
        let _count = disk.blocks();
        let place = off + done as u64;
        let number = (place / 4096) as u32;
        let from = (place % 4096) as usize;
        let count = (4096 - from).min(bytes.len() - done);
        let part = &bytes[done..done + count];
        match write_part(disk, shape, table, newest, file, number, from, part) {
            Io::Failed => return Io::Failed,
            Io::Done => {}
        }
        done += count;
    }
    Io::Done
}

// Writes bytes of one block from `from` on.
fn write_part<D: Disk>(
    disk: &mut D,
    shape: Shape,
    table: &Block,
    newest: &mut Block,
    file: u32,
    number: u32,
    from: usize,
    part: &[u8],
) -> Io
    requires within { InShape shape file number }
    requires fits { from + length part.now ≤ 4096 }
    requires room { blocks_of shape.files shape.blocks ≤ D.size disk.old }
    ensures safe { D.Told → KeepsSafe shape table.now file (D.fuse disk.old) (D.fuse disk.new) (D.timeline disk.old) (D.timeline disk.new) }
    ensures written { D.Told → result ≡ Io.Done → contents (D.timeline disk.new) (place_of shape newest.new file number)
        ≡ put_in from part.now (contents (D.timeline disk.old) (place_of shape newest.old file number)) }
    ensures others { D.Told → (j b h : ℕ) → InShape shape j b → h ≤ 1 → (j ≡ file → b ≡ number → ⊥)
        → contents (D.timeline disk.new) (data_at shape.files shape.blocks j b h) ≡ contents (D.timeline disk.old) (data_at shape.files shape.blocks j b h) }
    ensures homes { (b : ℕ) → b ≢ number → home_in newest.new b ≡ home_in newest.old b }
    ensures words { take 16 newest.new ≡ take 16 newest.old }
    ensures size { D.size disk.new ≡ D.size disk.old }
    ensures unset { D.fuse disk.old ≡ Unset → D.fuse disk.new ≡ Unset }
    ensures faults { D.faults disk.old ≤ D.faults disk.new }
    ensures cause { result ≡ Io.Failed → Rose (D.faults disk.old) (D.faults disk.new) }
{
    match write_next(disk, shape, table, newest, file, number, from, part) {
        Io::Failed => return Io::Failed,
        Io::Done => {}
    }
    set_home(newest, number, 1 - home_in(table, number));
    Io::Done
}

// Writes bytes of one block from `from` on to the home that the safe table doesn't name. A whole block is
// written from its place; the other bytes of one that isn't are taken from where `newest` has it.
fn write_next<D: Disk>(
    disk: &mut D,
    shape: Shape,
    table: &Block,
    newest: &Block,
    file: u32,
    number: u32,
    from: usize,
    part: &[u8],
) -> Io
    requires within { InShape shape file number }
    requires fits { from + length part.now ≤ 4096 }
    requires room { blocks_of shape.files shape.blocks ≤ D.size disk.old }
    ensures safe { D.Told → KeepsSafe shape table.now file (D.fuse disk.old) (D.fuse disk.new) (D.timeline disk.old) (D.timeline disk.new) }
    ensures written { D.Told → result ≡ Io.Done → contents (D.timeline disk.new) (next_place shape table.now file number)
        ≡ put_in from part.now (contents (D.timeline disk.old) (place_of shape newest.now file number)) }
    ensures elsewhere { D.Told → (b : ℕ) → b ≢ next_place shape table.now file number
        → contents (D.timeline disk.new) b ≡ contents (D.timeline disk.old) b }
    ensures size { D.size disk.new ≡ D.size disk.old }
    ensures unset { D.fuse disk.old ≡ Unset → D.fuse disk.new ≡ Unset }
    ensures faults { D.faults disk.old ≤ D.faults disk.new }
    ensures cause { result ≡ Io.Failed → Rose (D.faults disk.old) (D.faults disk.new) }
{
    let _count = disk.blocks();
    match part.as_array() {
        Some(whole) => write_block(disk, shape, table, file, number, whole),
        None => match patched(disk, shape, newest, file, number, from, part) {
            Some(block) => write_block(disk, shape, table, file, number, &block),
            None => Io::Failed,
        },
    }
}

// A block with bytes put in from `from` on. Its other bytes are read from where the table has it. None
// where that fails.
fn patched<D: Disk>(
    disk: &mut D,
    shape: Shape,
    table: &Block,
    file: u32,
    number: u32,
    from: usize,
    part: &[u8],
) -> Option<Block>
    requires within { InShape shape file number }
    requires fits { from + length part.now ≤ 4096 }
    requires room { blocks_of shape.files shape.blocks ≤ D.size disk.old }
    ensures block { D.Told → IfSome result (λ block. block
        ≡ put_in from part.now (contents (D.timeline disk.old) (place_of shape table.now file number))) }
    ensures same { D.Told → D.timeline disk.new ≡ D.timeline disk.old }
    ensures size { D.size disk.new ≡ D.size disk.old }
    ensures fuse { D.fuse disk.new ≡ D.fuse disk.old }
    ensures faults { D.faults disk.old ≤ D.faults disk.new }
    ensures cause { result ≡ None → Rose (D.faults disk.old) (D.faults disk.new) }
{
    let _count = disk.blocks();
    let mut block = [0; 4096];
    match read_block(disk, shape, table, file, number, &mut block) {
        Io::Failed => return None,
        Io::Done => {}
    }
    put_part(&mut block, from, part);
    Some(block)
}
