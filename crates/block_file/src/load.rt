ghost use Rattle.std.specs.Prelude.{◌≡◌, ℕ, ◌+◌, ◌≤◌, [], length, slice_index, slice_index_or, IfOk, IfSome, None, Ok};
ghost use Rattle.outcome.specs.Causes.{Rose};
ghost use Rattle.disk_model.specs.Elapsed.{contents};
ghost use Rattle.block_file.specs.Layout.{blocks_of};
ghost use Rattle.block_file.specs.Loaded.{AreCells};

use crate::cell::GatedCell;
use crate::shape::Shape;
use disk_model::{Block, Disk};
use outcome::Mem;
use std::alloc::Global;

/// The cells of a volume: for each the home in force, the block there, and what is to be put next.
#[derive(Drop)]
pub struct Cells {
    pub homes: Vec<u8>,
    pub tables: Vec<Block>,
    pub newest: Vec<Block>,
}

/// Reads all cells of a volume, whose safe tables are the newest. None where a read fails.
pub fn load_cells<D: Disk>(alloc: Global, disk: &mut D, shape: Shape) -> Mem<Option<Cells>>
    requires { blocks_of shape.files shape.blocks ≤ D.size disk.old }
    ensures homes { IfOk result (λ answer. IfSome answer (λ cells. length cells.homes.items ≡ shape.files + 1)) }
    ensures tables { IfOk result (λ answer. IfSome answer (λ cells. length cells.tables.items ≡ shape.files + 1)) }
    ensures newest { IfOk result (λ answer. IfSome answer (λ cells. cells.newest.items ≡ cells.tables.items)) }
    ensures two { IfOk result (λ answer. IfSome answer (λ cells. (j : ℕ) → j ≤ shape.files → slice_index cells.homes.items j ≤ 1)) }
    ensures read { D.Told → IfOk result (λ answer. IfSome answer (λ cells. AreCells shape.files
        (λ j. slice_index cells.homes.items j) (λ j. slice_index_or cells.tables.items j []) (contents (D.timeline disk.old)))) }
    ensures same { D.Told → D.timeline disk.new ≡ D.timeline disk.old }
    ensures size { D.size disk.new ≡ D.size disk.old }
    ensures fuse { D.fuse disk.new ≡ D.fuse disk.old }
    ensures faults { D.faults disk.old ≤ D.faults disk.new }
    ensures cause { result ≡ Ok None → Rose (D.faults disk.old) (D.faults disk.new) }
{
    let count = shape.files as usize + 1;
    let mut homes = Vec::with_capacity(alloc, count)?;
    let mut tables = Vec::with_capacity(alloc, count)?;
    let mut newest = Vec::with_capacity(alloc, count)?;
    let mut block = [0; 4096];
    for number in 0..u64::from(shape.files) + 1 {
        match GatedCell::read(disk, 1 + 3 * number, &mut block) {
            None => return Ok(None),
            Some(cell) => {
                homes.push(cell.home)?;
                tables.push(block)?;
                newest.push(block)?;
            }
        }
    }
    Ok(Some(Cells {
        homes,
        tables,
        newest,
    }))
}
