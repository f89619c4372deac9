/// What stands behind the operations of a compound that were read. `place` counts its operations from 0.
#[derive(Clone, Copy, PartialEq, Eq)]
pub enum Tail {
    /// All operations were read and nothing follows them, or the last one is cut: nothing is looked at
    /// behind that one.
    Whole,
    /// The operation at `place` can't be read: `at` is the place of the item that is refused, in bytes from
    /// the compound's first. Where its number is cut short, `op` is 10044.
    Unreadable { place: u32, op: u32, at: usize },
    /// The number of the operation at `place` is one of the protocol's, and isn't served.
    Unsupported { place: u32, op: u32 },
    /// No operation has the number that stands at `place`.
    Illegal { place: u32, op: u32 },
}
