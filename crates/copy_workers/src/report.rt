use std::sync::ledger::{Ledger, Share};

/// Why a worker ended.
#[derive(Clone, Copy, Debug, PartialEq, Eq)]
pub enum WorkerEnd {
    /// There was no link for it.
    NoLink,

    /// Its link is down.
    Down,

    /// It had all its turns.
    Turns,

    /// The desk was closed.
    Closed,
}

// What one worker did, in bytes and turns, and why it ended.
#[derive(Clone, Copy)]
pub(crate) struct Ended {
    pub(crate) share: u64,
    pub(crate) turned: u64,
    pub(crate) given: u64,
    pub(crate) end: WorkerEnd,
}

/// What workers did, by their order. The links come first; beyond them there are no workers.
#[derive(Drop)]
pub struct WorkerReport<L: Ledger, T: Ledger, G: Ledger, Z> {
    /// The workers' shares of landed bytes, joined again.
    pub all: Share<L>,

    /// Their shares of turns, joined again.
    pub all_turned: Share<T>,

    /// Their shares of bytes given to send, joined again.
    pub all_given: Share<G>,

    /// How many bytes each landed.
    pub shares: [u64; 8],

    /// The bytes that landed by the desk's book, after the joins.
    pub book: u64,

    /// How many turns each had.
    pub turned: [u64; 8],

    /// How many bytes each was given to send, marks included.
    pub given: [u64; 8],

    /// Why each ended.
    pub ends: [WorkerEnd; 8],

    /// Why the desk was closed, where a worker ended by that.
    pub shut: Option<Z>,
}
