ghost use Rattle.std.specs.Prelude.{◌≡◌, ◌+◌, ◌*◌, ◌<◌, ◌≤◌};

/// How many files a volume has, and of how many blocks each. It has 64 files and 16,384 blocks at most.
#[derive(Clone, Copy, PartialEq, Eq)]
pub struct Shape {
    pub files: u32,
    pub blocks: u32,
    ghost some_files: { 1 ≤ files },
    ghost few_files: { files ≤ 64 },
    ghost some_blocks: { 1 ≤ blocks },
    ghost few_blocks: { blocks ≤ 16384 },
    ghost room: { files * blocks ≤ 16384 },
}
