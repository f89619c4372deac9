/// What a crash kept of a commit that it found unfinished.
#[derive(Clone, Copy, Debug, PartialEq, Eq)]
pub enum Kept {
    /// The file's contents before it.
    Old,

    /// Those that it was making safe.
    New,

    /// There was no such commit.
    Nothing,
}
