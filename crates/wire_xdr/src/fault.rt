/// Why a word was refused. The reader then stands where it stood.
#[derive(Clone, Copy, Debug, PartialEq, Eq)]
pub enum XdrFault {
    /// Fewer bytes are left than the item needs, its padding included.
    Short { need: u64, have: u64 },

    /// The first byte of padding that isn't zero, counted from the reader's first byte.
    BadPad { at: usize },

    /// A bool above 1.
    BadFlag { value: u32 },

    /// A length or a count above its limit.
    TooLong { len: u32, max: u32 },
}
