//! Why a server's volume isn't made.

ghost use Rattle.std.specs.Prelude.{◌≡◌};
ghost use Rattle.wire_run.specs.Fresh.{unformatted, unopened};

use block_file::{FormatFault, OpenFault};

/// Why no volume was made on a server's disk.
#[derive(Clone, Copy, Debug, PartialEq, Eq)]
pub enum Unmade {
    /// The disk counted a fault.
    DiskFailed,

    /// The volume needs more blocks than the disk has.
    TooSmall { need: u64, have: u64 },

    /// The disk doesn't hold what was written: the first field of a volume that is off, by its block and the byte there.
    NotVolume { block: u64, at: u32 },
}

/// Why a disk wasn't formatted.
pub(crate) fn unformatted(fault: FormatFault) -> Unmade
    ensures { result ≡ unformatted fault }
{
    match fault {
        FormatFault::DiskFailed => Unmade::DiskFailed,
        FormatFault::TooSmall { need, have } => Unmade::TooSmall { need, have },
    }
}

/// Why a volume wasn't opened.
pub(crate) fn unopened(fault: OpenFault) -> Unmade
    ensures { result ≡ unopened fault }
{
    match fault {
        OpenFault::DiskFailed => Unmade::DiskFailed,
        OpenFault::NotVolume { block, at } => Unmade::NotVolume { block, at },
    }
}

/// The number of files of a volume that was written isn't what it was.
pub(crate) const OTHER_FILES: Unmade = Unmade::NotVolume { block: 0, at: 8 };
