ghost use Rattle.std.specs.Prelude.{◌≡◌, ◌+◌, ◌<◌, ◌≤◌};
ghost use Rattle.link_server.specs.Keeping.{tally_after};

use rpc_msg::Pumped;

/// How many records a server gives out in all.
pub const ALL_RECORDS: u64 = 16_777_216;

/// How many records a connection is given, where so many are left.
pub const EACH_RECORDS: u64 = 1_048_576;

/// How many connections are served at once.
pub const MOST_LINKS: usize = 16;

/// Why a server accepted no more.
#[derive(Clone, Copy, Debug, PartialEq, Eq)]
pub enum Stop {
    /// As many connections were accepted as were asked for.
    All,
    /// No connection was left.
    End,
    /// Accepting failed.
    Failed,
    /// All records were taken.
    Spent,
}

/// What a server did.
#[derive(Clone, Copy, Debug, PartialEq, Eq)]
pub struct Tally {
    /// How many connections it accepted, each of which was served and hung up.
    pub accepted: u32,
    /// How many of them ended for want of memory.
    pub starved: u32,
    /// How many records are left of those that a server gives out.
    pub left: u64,
    /// Why it accepted no more.
    pub stop: Stop,
}

impl Tally {
    // Takes back the records that a connection left, which had ended so.
    pub(crate) fn after(self, end: Option<Pumped>, unused: u64) -> Tally
        requires room { self.left + unused ≤ ALL_RECORDS }
        requires counted { self.starved < self.accepted }
        ensures { result ≡ tally_after self end unused }
    {
        let starved = match end {
            Some(_) => self.starved,
            None => self.starved + 1,
        };
        Tally {
            starved,
            left: self.left + unused,
            ..self
        }
    }
}
