ghost use Rattle.std.specs.Prelude.{◌≡◌, ◌≢◌, ℕ, ◌+◌, ◌-◌, ◌*◌, ◌<◌, ◌≤◌, length, drop, replicate, max};
ghost use Rattle.outcome.specs.Causes.{Rose};
ghost use Rattle.copy_model.specs.Volume.{bytes_at, with_bytes_at};
ghost use Rattle.disk_model.specs.declared.fuse.Fuse.TheVariants.{Unset};
ghost use Rattle.disk_model.specs.Elapsed.{contents};
ghost use Rattle.block_file.specs.Layout.{data_at, blocks_of, size_in};
ghost use Rattle.block_file.specs.Stored.{blocks_by};
ghost use Rattle.block_file.specs.Blocks.{InShape, KeepsSafe};
ghost use Rattle.block_file.specs.Held.{held_by};

use crate::runs::{read_run, write_run};
use crate::shape::Shape;
use crate::tables::{size_in, with_words};
use disk_model::{Block, Disk, Io};

/// Fills `out` with a file's bytes from `off` on, and with zeros past its end. `newest` is its newest table.
pub fn read_file<D: Disk>(
    disk: &mut D,
    shape: Shape,
    newest: &Block,
    file: u32,
    off: u64,
    out: &mut [u8],
) -> Io
    requires some { 1 ≤ file }
    requires there { file ≤ shape.files }
    requires fits { size_in newest.now ≤ shape.blocks * 4096 }
    requires room { blocks_of shape.files shape.blocks ≤ D.size disk.old }
    ensures bytes { D.Told → result ≡ Io.Done
        → out.new ≡ bytes_at (held_by shape newest.now (contents (D.timeline disk.old)) file).now off (length out.old) }
    ensures same { D.Told → D.timeline disk.new ≡ D.timeline disk.old }
    ensures size { D.size disk.new ≡ D.size disk.old }
    ensures fuse { D.fuse disk.new ≡ D.fuse disk.old }
    ensures faults { D.faults disk.old ≤ D.faults disk.new }
    ensures cause { result ≡ Io.Failed → Rose (D.faults disk.old) (D.faults disk.new) }
{
    let _count = disk.blocks();
    let size = size_in(newest);
    let from = size.min(off);
    let there = (size - from).min(out.len() as u64) as usize;
    match read_run(disk, shape, newest, file, from, &mut out[..there]) {
        Io::Failed => return Io::Failed,
        Io::Done => {}
    }
    out[there..].fill(0);
    Io::Done
}

/// Writes a file's bytes at `off`, which makes `change` its change attribute. `newest` is then its newest
/// table. A crash at any moment leaves what was safe.
pub fn write_file<D: Disk>(
    disk: &mut D,
    shape: Shape,
    table: &Block,
    newest: &mut Block,
    file: u32,
    off: u64,
    bytes: &[u8],
    change: u64,
) -> Io
    requires some { 1 ≤ file }
    requires there { file ≤ shape.files }
    requires fits { off + length bytes.now ≤ shape.blocks * 4096 }
    requires sized { size_in newest.old ≤ shape.blocks * 4096 }
    requires clean { D.Told → drop (size_in newest.old) (blocks_by shape.files shape.blocks newest.old (contents (D.timeline disk.old)) file)
        ≡ replicate (shape.blocks * 4096 - size_in newest.old) 0 }
    requires room { blocks_of shape.files shape.blocks ≤ D.size disk.old }
    ensures safe { D.Told → KeepsSafe shape table.now file (D.fuse disk.old) (D.fuse disk.new) (D.timeline disk.old) (D.timeline disk.new) }
    ensures written { D.Told → result ≡ Io.Done → held_by shape newest.new (contents (D.timeline disk.new)) file
        ≡ record { now = with_bytes_at (held_by shape newest.old (contents (D.timeline disk.old)) file).now off bytes.now; change = change } }
    ensures clean { D.Told → result ≡ Io.Done → drop (size_in newest.new) (blocks_by shape.files shape.blocks newest.new (contents (D.timeline disk.new)) file)
        ≡ replicate (shape.blocks * 4096 - size_in newest.new) 0 }
    ensures sized { result ≡ Io.Done → size_in newest.new ≤ shape.blocks * 4096 }
    ensures others { D.Told → (j b h : ℕ) → InShape shape j b → h ≤ 1 → j ≢ file
        → contents (D.timeline disk.new) (data_at shape.files shape.blocks j b h) ≡ contents (D.timeline disk.old) (data_at shape.files shape.blocks j b h) }
    ensures size { D.size disk.new ≡ D.size disk.old }
    ensures unset { D.fuse disk.old ≡ Unset → D.fuse disk.new ≡ Unset }
    ensures faults { D.faults disk.old ≤ D.faults disk.new }
    ensures cause { result ≡ Io.Failed → Rose (D.faults disk.old) (D.faults disk.new) }
{
    let _count = disk.blocks();
    let size = size_in(newest).max(off + bytes.len() as u64);
    match write_run(disk, shape, table, newest, file, off, bytes) {
        Io::Failed => return Io::Failed,
        Io::Done => {}
    }
    let _after = disk.blocks();
    *newest = with_words(newest, size, change);
    Io::Done
}
