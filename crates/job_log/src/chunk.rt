/// A piece of the copied range, which is read and lands at once. Its offset counts from the start of
/// the range.
#[derive(Clone, Copy, PartialEq, Eq)]
pub struct Chunk {
    /// Where it begins, in bytes.
    pub off: u64,

    /// How many bytes it has: a whole chunk, but for the last of a range.
    pub len: u32,
}

/// What became of a chunk that was to land.
#[derive(Clone, Copy, PartialEq, Eq)]
pub enum Landing {
    /// It landed.
    Landed,

    /// The job is consecutive, and an earlier chunk hasn't landed.
    Held,

    /// The job has ended, or the chunk isn't claimed.
    Late,
}
