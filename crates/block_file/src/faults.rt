use std::error::Error;
use std::fmt;

/// Why a volume can't be read or committed.
#[derive(Clone, Copy, Debug, PartialEq, Eq)]
pub enum ReadFault {
    /// The disk counted a fault in this call.
    DiskFailed,
    /// A write or commit of this opening failed.
    Broken,
}

/// Why a volume can't be written.
#[derive(Clone, Copy, Debug, PartialEq, Eq)]
pub enum WriteFault {
    /// The bytes end past the capacity of a file.
    TooFar,
    /// This opening has no further write number.
    Worn,
    /// The disk counted a fault in this call.
    DiskFailed,
    /// A write or commit of this opening failed.
    Broken,
}

/// Why a disk can't be formatted.
#[derive(Clone, Copy, Debug, PartialEq, Eq)]
pub enum FormatFault {
    /// The volume needs more blocks than the disk has.
    TooSmall { need: u64, have: u64 },
    /// The disk counted a fault in this call.
    DiskFailed,
}

/// Why a disk can't be opened as a volume.
#[derive(Clone, Copy, Debug, PartialEq, Eq)]
pub enum OpenFault {
    /// The first field that is off: its block, and the byte of that block at which it begins.
    NotVolume { block: u64, at: u32 },
    /// The disk counted a fault in this call.
    DiskFailed,
}

impl fmt::Display for ReadFault {
    fn fmt<W: fmt::Write>(&self, f: &mut fmt::Formatter<W>) -> fmt::Result {
        f.write_str(match self {
            ReadFault::DiskFailed => "the disk failed",
            ReadFault::Broken => "an earlier write or commit failed",
        })
    }
}

impl Error for ReadFault {}

impl fmt::Display for WriteFault {
    fn fmt<W: fmt::Write>(&self, f: &mut fmt::Formatter<W>) -> fmt::Result {
        f.write_str(match self {
            WriteFault::TooFar => "the bytes end past the capacity of a file",
            WriteFault::Worn => "there is no further write number",
            WriteFault::DiskFailed => "the disk failed",
            WriteFault::Broken => "an earlier write or commit failed",
        })
    }
}

impl Error for WriteFault {}

impl fmt::Display for FormatFault {
    fn fmt<W: fmt::Write>(&self, f: &mut fmt::Formatter<W>) -> fmt::Result {
        f.write_str(match self {
            FormatFault::TooSmall { .. } => "the disk has too few blocks",
            FormatFault::DiskFailed => "the disk failed",
        })
    }
}

impl Error for FormatFault {}

impl fmt::Display for OpenFault {
    fn fmt<W: fmt::Write>(&self, f: &mut fmt::Formatter<W>) -> fmt::Result {
        f.write_str(match self {
            OpenFault::NotVolume { .. } => "the disk holds no volume",
            OpenFault::DiskFailed => "the disk failed",
        })
    }
}

impl Error for OpenFault {}
