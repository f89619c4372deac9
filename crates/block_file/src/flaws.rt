ghost use Rattle.std.specs.Prelude.{◌≡◌, ℕ, ◌+◌, ◌*◌, ◌≤◌, [], drop, take, length, slice_index, slice_index_or, IfOk, IfErr, IfSome, Some};
ghost use Rattle.std.specs.Option.{option_map};
ghost use Rattle.std.specs.Str.{bytes_eq};
ghost use Rattle.block_file.specs.Layout.{letters, head_tag, blocks_of};
ghost use Rattle.block_file.specs.Stored.{is_misfit, first_stain, head_flaw, first_oversized, cell_flaw};
ghost use Rattle.block_file.specs.Opened.{HeadIs};

use crate::load::Cells;
use crate::shape::Shape;
use crate::tables::{boot_in, size_in, table_at, word_in};
use disk_model::Block;
use nfs_base::{BLOCK_SIZE, MOST_BLOCKS, MOST_FILES};

/// The shape that block 0 names, on a disk of `size` blocks; or the first byte of it that is off.
pub fn shape_in(head: &Block, size: u64) -> Result<Shape, u32>
    ensures shape { IfOk result (λ shape. HeadIs size shape (head_tag head.now) head.now) }
    ensures room { IfOk result (λ shape. blocks_of shape.files shape.blocks ≤ size) }
    ensures flaw { IfErr result (λ at. head_flaw size head.now ≡ Some at) }
{
    let files = word_in(head, 8);
    let blocks = word_in(head, 12);
    if !has_letters(head) {
        return Err(0);
    }
    if files < 1 || files > MOST_FILES {
        return Err(8);
    }
    if is_misfit(files, blocks, size) {
        return Err(12);
    }
    match first_stain(head) {
        Some(at) => Err(at),
        None => Ok(Shape { files, blocks }),
    }
}

// Whether a block begins as that of a volume.
fn has_letters(head: &Block) -> bool
    ensures { result ≡ bytes_eq (take 8 head.now) letters }
{
    head[..8] == b"NFSCPYV1"[..]
}

// Whether there can't be a volume of so many files of so many blocks on a disk of this size.
fn is_misfit(files: u32, blocks: u32, size: u64) -> bool
    requires { files ≤ MOST_FILES }
    ensures { result ≡ is_misfit files blocks size }
{
    let slots = u64::from(files) * u64::from(blocks);
    if blocks < 1 || blocks > MOST_BLOCKS || slots > u64::from(MOST_BLOCKS) {
        return true;
    }
    size < 4 + 3 * u64::from(files) + 2 * slots
}

// The first byte of block 0 from 24 on that isn't 0.
fn first_stain(head: &Block) -> Option<u32>
    ensures { result ≡ first_stain 24 (drop 24 head.now) }
{
    for at in 24usize..4096 {
        if head[at] != 0 {
            return Some(at as u32);
        }
    }
    None
}

/// The block that is the first of a volume's cells to be off: that of a boot number that has no next one,
/// or of a safe size above the capacity of a file.
pub fn cell_flaw(shape: Shape, cells: &Cells) -> Option<u64>
    requires homes { length cells.now.homes.items ≡ shape.files + 1 }
    requires tables { length cells.now.tables.items ≡ shape.files + 1 }
    requires two { (j : ℕ) → j ≤ shape.files → slice_index cells.now.homes.items j ≤ 1 }
    ensures flaw { option_map (λ block. record { block = block; at = 0 }) result ≡ cell_flaw shape.files (shape.blocks * 4096)
        (λ j. slice_index cells.now.homes.items j) (λ j. slice_index_or cells.now.tables.items j []) }
{
    let tables = &cells.tables;
    if boot_in(&table_at(tables, 0)) == u32::MAX {
        return Some(2 + u64::from(cells.homes[0]));
    }
    match first_oversized(shape, tables) {
        Some(file) => Some(2 + 3 * u64::from(file) + u64::from(cells.homes[file as usize])),
        None => None,
    }
}

// The first file whose safe size passes the capacity.
fn first_oversized(shape: Shape, tables: &Vec<Block>) -> Option<u32>
    requires { length tables.now.items ≡ shape.files + 1 }
    ensures within { IfSome result (λ file. file ≤ shape.files) }
    ensures first { result ≡ first_oversized (shape.blocks * 4096) (λ j. slice_index_or tables.now.items j []) 1 shape.files }
{
    let capacity = u64::from(shape.blocks) * BLOCK_SIZE;
    for file in 1..shape.files + 1 {
        if size_in(&table_at(tables, file as usize)) > capacity {
            return Some(file);
        }
    }
    None
}
