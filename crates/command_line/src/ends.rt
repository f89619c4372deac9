ghost use Rattle.std.specs.Prelude.{◌≡◌};
ghost use Rattle.command_line.specs.ExitStatus.{code_of, copy_status, format_status, serve_status, usage_status, run_status, gen_status, show_status};

use crate::exit_status::ExitStatus;
use linked_copy::CopyEnd;
use source_server::ServeEnd;
use volume_format::FormatEnd;

/// How the program ends for words of no command.
#[derive(Clone, Copy, PartialEq, Eq)]
pub enum UsageEnd {
    /// The line `usage` was put.
    Put,

    /// The sink failed.
    WriteFault,
}

/// How `run` ends.
#[derive(Clone, Copy, PartialEq, Eq)]
pub enum RunEnd {
    /// The schedule was carried out, and its transcript was put.
    Done,

    /// The input is no schedule.
    Refused,

    /// The records of the run have too many bytes.
    OverLimit,

    /// A record was taken by mistake.
    Mistaken,

    /// The source failed.
    ReadFault,

    /// The sink failed.
    WriteFault,

    /// Want of memory.
    NoMemory,

    /// A disk failed while its volume was made.
    DiskFault,

    /// A disk has too few blocks, or didn't give back what was written.
    NoVolume,
}

/// How `gen` ends.
#[derive(Clone, Copy, PartialEq, Eq)]
pub enum GenEnd {
    /// The schedule was carried out, and its summary was put.
    Done,

    /// The records of the run have too many bytes.
    OverLimit,

    /// A record was taken by mistake.
    Mistaken,

    /// The sink failed.
    WriteFault,

    /// Want of memory.
    NoMemory,

    /// A disk failed while its volume was made.
    DiskFault,

    /// A disk has too few blocks, or didn't give back what was written.
    NoVolume,
}

/// How `show` ends.
#[derive(Clone, Copy, PartialEq, Eq)]
pub enum ShowEnd {
    /// All lines of the stream were put.
    Done,

    /// The stream is refused.
    Refused,

    /// The source failed.
    ReadFault,

    /// The sink failed.
    WriteFault,

    /// Want of memory.
    NoMemory,
}

impl UsageEnd {
    /// The exit status that says this end.
    pub fn code(self) -> u8
        ensures { result ≡ code_of (usage_status self) }
    {
        let status = match self {
            UsageEnd::Put => ExitStatus::Usage,
            UsageEnd::WriteFault => ExitStatus::WriteFault,
        };
        status.code()
    }
}

impl RunEnd {
    /// The exit status that says this end.
    pub fn code(self) -> u8
        ensures { result ≡ code_of (run_status self) }
    {
        let status = match self {
            RunEnd::Done => ExitStatus::Done,
            RunEnd::Refused => ExitStatus::Refused,
            RunEnd::OverLimit => ExitStatus::Refused,
            RunEnd::Mistaken => ExitStatus::Mistaken,
            RunEnd::ReadFault => ExitStatus::ReadFault,
            RunEnd::WriteFault => ExitStatus::WriteFault,
            RunEnd::NoMemory => ExitStatus::NoMemory,
            RunEnd::DiskFault => ExitStatus::DiskFault,
            RunEnd::NoVolume => ExitStatus::NoVolume,
        };
        status.code()
    }
}

impl GenEnd {
    /// The exit status that says this end.
    pub fn code(self) -> u8
        ensures { result ≡ code_of (gen_status self) }
    {
        let status = match self {
            GenEnd::Done => ExitStatus::Done,
            GenEnd::OverLimit => ExitStatus::Refused,
            GenEnd::Mistaken => ExitStatus::Mistaken,
            GenEnd::WriteFault => ExitStatus::WriteFault,
            GenEnd::NoMemory => ExitStatus::NoMemory,
            GenEnd::DiskFault => ExitStatus::DiskFault,
            GenEnd::NoVolume => ExitStatus::NoVolume,
        };
        status.code()
    }
}

impl ShowEnd {
    /// The exit status that says this end.
    pub fn code(self) -> u8
        ensures { result ≡ code_of (show_status self) }
    {
        let status = match self {
            ShowEnd::Done => ExitStatus::Done,
            ShowEnd::Refused => ExitStatus::Refused,
            ShowEnd::ReadFault => ExitStatus::ReadFault,
            ShowEnd::WriteFault => ExitStatus::WriteFault,
            ShowEnd::NoMemory => ExitStatus::NoMemory,
        };
        status.code()
    }
}

/// The exit status that says how a format ended.
pub fn format_code(end: FormatEnd) -> u8
    ensures { result ≡ code_of (format_status end) }
{
    let status = match end {
        FormatEnd::Done => ExitStatus::Done,
        FormatEnd::WriteFault => ExitStatus::WriteFault,
        FormatEnd::NoMemory => ExitStatus::NoMemory,
        FormatEnd::DiskFault => ExitStatus::DiskFault,
        FormatEnd::TooSmall => ExitStatus::NoVolume,
    };
    status.code()
}

/// The exit status that says how serving ended.
pub fn serve_code(end: ServeEnd) -> u8
    ensures { result ≡ code_of (serve_status end) }
{
    let status = match end {
        ServeEnd::Done => ExitStatus::Done,
        ServeEnd::WriteFault => ExitStatus::WriteFault,
        ServeEnd::NoMemory => ExitStatus::NoMemory,
        ServeEnd::DiskFault => ExitStatus::DiskFault,
        ServeEnd::NotVolume => ExitStatus::NoVolume,
        ServeEnd::NetFault => ExitStatus::NetFault,
    };
    status.code()
}

/// The exit status that says how a copy over a net ended.
pub fn copy_code(end: CopyEnd) -> u8
    ensures { result ≡ code_of (copy_status end) }
{
    let status = match end {
        CopyEnd::Stable => ExitStatus::Done,
        CopyEnd::Failed => ExitStatus::CopyFailed,
        CopyEnd::LinkFault => ExitStatus::NetFault,
        CopyEnd::DrawFault => ExitStatus::NetFault,
        CopyEnd::DialFault => ExitStatus::NetFault,
        CopyEnd::WriteFault => ExitStatus::WriteFault,
        CopyEnd::NoMemory => ExitStatus::NoMemory,
    };
    status.code()
}
