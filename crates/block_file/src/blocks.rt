ghost use Rattle.std.specs.Prelude.{◌≡◌, ◌≢◌, ℕ, ◌+◌, ◌-◌, ◌*◌, ◌<◌, ◌≤◌, List, ◌⊎◌};
ghost use Rattle.outcome.specs.Causes.{Rose};
ghost use Rattle.disk_model.specs.declared.fuse.Fuse.TheVariants.{Unset};
ghost use Rattle.disk_model.specs.Disk.{IsSettled};
ghost use Rattle.disk_model.specs.Elapsed.{present, contents};
ghost use Rattle.disk_model.specs.Passes.{Passes};
ghost use Rattle.block_file.specs.Layout.{cell_at, data_at, blocks_of, home_in};
ghost use Rattle.block_file.specs.Blocks.{Safe, next_place, InShape, HasContent, Stands, Holds, KeepsSafe, with_table};

use crate::cell::GatedCell;
use crate::shape::Shape;
use disk_model::{Block, Disk, Io};

/// The home that a table names for a block.
pub fn home_in(table: &Block, block: u32) -> u8
    requires { block < 16384 }
    ensures home { result ≡ home_in table.now block }
    ensures bit { result ≤ 1 }
{
    (table[16 + block as usize / 8] >> (block % 8)) & 1
}

/// Where a home of a block of a file is.
pub fn data_at(shape: Shape, file: u32, block: u32, home: u8) -> u64
    requires within { InShape shape file block }
    requires home { home ≤ 1 }
    ensures place { result ≡ data_at shape.files shape.blocks file block home }
    ensures room { result < blocks_of shape.files shape.blocks }
{
    let cells = 4 + 3 * u64::from(shape.files);
    let before = u64::from(file - 1) * u64::from(shape.blocks) + u64::from(block);
    cells + 2 * before + u64::from(home)
}

/// Writes a block of a file to the home that the file's safe table doesn't name. Whether or not it
/// succeeds, a crash at any moment leaves what was safe.
pub fn write_block<D: Disk>(
    disk: &mut D,
    shape: Shape,
    table: &Block,
    file: u32,
    number: u32,
    block: &Block,
) -> Io
    requires within { InShape shape file number }
    requires room { blocks_of shape.files shape.blocks ≤ D.size disk.old }
    ensures safe { D.Told → KeepsSafe shape table.now file (D.fuse disk.old) (D.fuse disk.new) (D.timeline disk.old) (D.timeline disk.new) }
    ensures written { D.Told → result ≡ Io.Done → contents (D.timeline disk.new) (next_place shape table.now file number) ≡ block.now }
    ensures elsewhere { D.Told → (b : ℕ) → b ≢ next_place shape table.now file number
        → contents (D.timeline disk.new) b ≡ contents (D.timeline disk.old) b }
    ensures size { D.size disk.new ≡ D.size disk.old }
    ensures unset { D.fuse disk.old ≡ Unset → D.fuse disk.new ≡ Unset }
    ensures faults { D.faults disk.old ≤ D.faults disk.new }
    ensures cause { result ≡ Io.Failed → Rose (D.faults disk.old) (D.faults disk.new) }
{
    let at = data_at(shape, file, number, 1 - home_in(table, number));
    disk.write(at, block)
}

/// Puts a table in place of a file's safe one, or the boot cell's block where the number is 0. `home` is
/// the cell's home in force. A crash at any moment leaves all that was safe, or the new table with the
/// blocks that it names.
pub fn put_table<D: Disk>(
    disk: &mut D,
    shape: Shape,
    number: u32,
    home: &mut u8,
    table: &Block,
) -> Io
    requires within { number ≤ shape.files }
    requires home { home.old ≤ 1 }
    requires room { blocks_of shape.files shape.blocks ≤ D.size disk.old }
    ensures turned { result ≡ Io.Done → home.new ≡ 1 - home.old }
    ensures kept { result ≡ Io.Failed → home.new ≡ home.old }
    ensures stands { D.Told → result ≡ Io.Done → (safe : Safe) → safe.homes number ≡ home.old
        → Stands shape safe (present (D.timeline disk.old)) → Stands shape (with_table safe number table.now) (present (D.timeline disk.new)) }
    ensures settled { D.Told → result ≡ Io.Done → IsSettled (present (D.timeline disk.new)) }
    ensures content { D.Told → (tables : ℕ → List ℕ) (content : ℕ → ℕ → List ℕ)
        → HasContent shape tables content (contents (D.timeline disk.old)) → HasContent shape tables content (contents (D.timeline disk.new)) }
    ensures any_moment { D.Told → (safe : Safe) (before after : ℕ → ℕ → List ℕ) → safe.homes number ≡ home.old
        → Stands shape safe (present (D.timeline disk.old)) → HasContent shape safe.tables before (contents (D.timeline disk.old))
        → HasContent shape (with_table safe number table.now).tables after (contents (D.timeline disk.old))
        → Passes (D.fuse disk.old) (D.fuse disk.new) (D.timeline disk.old) (D.timeline disk.new)
        (λ image. Holds shape safe before image ⊎ Holds shape (with_table safe number table.now) after image) }
    ensures size { D.size disk.new ≡ D.size disk.old }
    ensures unset { D.fuse disk.old ≡ Unset → D.fuse disk.new ≡ Unset }
    ensures faults { D.faults disk.old ≤ D.faults disk.new }
    ensures cause { result ≡ Io.Failed → Rose (D.faults disk.old) (D.faults disk.new) }
{
    let mut cell = GatedCell {
        at: 1 + 3 * u64::from(number),
        home: *home,
    };
    let result = cell.put(disk, table);
    *home = cell.home;
    result
}
