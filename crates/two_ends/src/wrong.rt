use outcome::NoMemory;
use std::alloc::AllocError;

/// Why a step isn't made.
#[derive(Clone, Copy, Debug, PartialEq, Eq)]
pub enum Wrong {
    /// Memory was refused.
    NoMemory,

    /// What the step needs isn't there.
    Lacks(&'static str),
}

impl From<NoMemory> for Wrong {
    fn from(_: NoMemory) -> Wrong {
        Wrong::NoMemory
    }
}

impl From<AllocError> for Wrong {
    fn from(_: AllocError) -> Wrong {
        Wrong::NoMemory
    }
}
