ghost use Rattle.std.specs.Prelude.{◌≡◌};
ghost use Rattle.command_line.specs.ExitStatus.{code_of};

/// How the program ended. The numbers are its exit statuses.
#[derive(Clone, Copy, PartialEq, Eq)]
pub enum ExitStatus {
    /// All of the input was read, and all lines were put.
    Done = 0,

    /// The words are of no command.
    Usage = 1,

    /// The input is no schedule, has a record that is too large, or passes its limit; or the records of a run do.
    Refused = 2,

    /// The source of the input counted a fault.
    ReadFault = 3,

    /// The sink of the output counted a fault.
    WriteFault = 4,

    /// Want of memory.
    NoMemory = 5,

    /// A disk counted a fault while its volume was formatted or opened.
    DiskFault = 6,

    /// A disk has too few blocks for its volume, doesn't hold the volume that was written, or holds none that could be served.
    NoVolume = 7,

    /// A server's listener counted a fault; or, of a copy, a link, a dial or the draws.
    NetFault = 8,

    /// A copy failed, with a status of its own.
    CopyFailed = 9,

    /// A record was accepted under another seal than its own, or as the answer to another call.
    Mistaken = 10,
}

impl ExitStatus {
    /// The program's exit status.
    pub fn code(self) -> u8
        ensures { result ≡ code_of self }
    {
        self as u8
    }
}
