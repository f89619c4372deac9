ghost use Rattle.std.specs.Prelude.{◌≡◌, ◌≢◌, ℕ, ◌+◌, ◌-◌, ◌<◌, ◌≤◌, ◌++◌, length, [], take, drop, slice_index, slice_index_or};
ghost use Rattle.std.specs.Int.{w32, from_be_bytes};
ghost use Rattle.block_file.specs.Lists.{put_in};
ghost use Rattle.block_file.specs.Layout.{boot_in, head_tag, size_in, change_in, home_in};

use disk_model::Block;

/// The size that a table has.
pub fn size_in(table: &Block) -> u64
    ensures { result ≡ size_in table.now }
{
    let mut word = [0; 8];
    word.copy_from_slice(&table[..8]);
    u64::from_be_bytes(word)
}

/// The change attribute that a table has.
pub fn change_in(table: &Block) -> u64
    ensures { result ≡ change_in table.now }
{
    let mut word = [0; 8];
    word.copy_from_slice(&table[8..16]);
    u64::from_be_bytes(word)
}

/// The boot number in the boot cell's block.
pub fn boot_in(block: &Block) -> u32
    ensures { result ≡ boot_in block.now }
{
    word_in(block, 0)
}

/// The tag in block 0.
pub fn tag_in(head: &Block) -> u64
    ensures { result ≡ head_tag head.now }
{
    let mut word = [0; 8];
    word.copy_from_slice(&head[16..24]);
    u64::from_be_bytes(word)
}

/// The boot cell's block of a boot number.
pub fn boot_block(boot: u32) -> Block
    ensures { boot_in result ≡ boot }
{
    let mut block = [0; 4096];
    put_part(&mut block, 0, &boot.to_be_bytes());
    block
}

/// The number of 32 bits at a place of a block.
pub fn word_in(block: &Block, at: usize) -> u32
    requires { at + 4 ≤ 4096 }
    ensures { result ≡ from_be_bytes w32 (take 4 (drop at block.now)) }
{
    let mut word = [0; 4];
    word.copy_from_slice(&block[at..at + 4]);
    u32::from_be_bytes(word)
}

/// A cell's block.
pub fn table_at(tables: &Vec<Block>, number: usize) -> Block
    requires { number < length tables.now.items }
    ensures { result ≡ slice_index_or tables.now.items number [] }
{
    tables[number]
}

/// The table with a file's size and change attribute.
pub fn with_words(table: &Block, size: u64, change: u64) -> Block
    ensures size { size_in result ≡ size }
    ensures change { change_in result ≡ change }
    ensures homes { (b : ℕ) → home_in result b ≡ home_in table.now b }
{
    let mut next = *table;
    put_part(&mut next, 0, &size.to_be_bytes());
    put_part(&mut next, 8, &change.to_be_bytes());
    next
}

/// Names a home of a block in a table.
pub fn set_home(table: &mut Block, block: u32, home: u8)
    requires few { block < 16384 }
    requires two { home ≤ 1 }
    ensures here { home_in table.new block ≡ home }
    ensures others { (b : ℕ) → b ≢ block → home_in table.new b ≡ home_in table.old b }
    ensures words { take 16 table.new ≡ take 16 table.old }
{
    let at = 16 + block as usize / 8;
    let bit = 1u8 << (block % 8);
    if home == 1 {
        table[at] |= bit;
    } else {
        table[at] &= !bit;
    }
}

/// Puts bytes at a place of a block.
pub fn put_part(block: &mut Block, at: usize, part: &[u8])
    requires { at + length part.now ≤ 4096 }
    ensures { block.new ≡ put_in at part.now block.old }
{
    block[at..at + part.len()].copy_from_slice(part);
}
