ghost use Rattle.std.specs.Prelude.{◌≡◌, ℕ, ◌≤◌, ◌<◌, List, ◌++◌, length, IfOk};
ghost use Rattle.rpc_msg.specs.Records.{record_limit, mark_of, records_of};
ghost use Rattle.rpc_msg.specs.Underway.{Feed, Feeds, IsFresh, Under, State, Open, fresh, cut, flow, then_flow, flow_of, told_of};

use crate::fragments::{Fragments, Progress};
use outcome::Mem;
use std::alloc::Global;
use std::marker::Model;

/// No record has more bytes than this, the marks of its fragments apart (own limit).
pub const RECORD_LIMIT: u32 = 73_728;

// What the top bit of a header is worth: it marks the last fragment.
pub(crate) const LAST: u32 = 1 << 31;

/// What a feed answers to one piece.
#[derive(Clone, Copy, Debug, PartialEq, Eq)]
pub enum Fed {
    /// The piece was taken whole and ended no record.
    Need,
    /// A record ended.
    Whole,
    /// The lengths of one record's fragments, summed as their headers come, passed the limit.
    TooLarge {
        /// The sum at the header that passed it, in bytes.
        len: u32,
    },
}

/// Puts the records of a stream together from the pieces in which it comes (RFC 5531 section 11).
#[derive(Drop)]
pub struct RecordFeed {
    fragments: Fragments,
    whole: bool,
    large: Option<u32>,
}

impl Model for RecordFeed {
    ghost use Rattle.std.specs.Prelude.{if◌then◌else◌};
    ghost use Rattle.rpc_msg.specs.Underway.{Feed, fresh};

    ghost Value = { Feed };

    ghost view = { λ f. record {
      under = if f.whole then fresh else f.fragments;
      told = f.fragments.joined;
      large = f.large;
    } };
}

impl RecordFeed {
    /// A feed that was given nothing. It takes all its room here, and no memory later.
    pub fn new(alloc: Global) -> Mem<RecordFeed>
        ensures { IfOk result IsFresh }
    {
        Ok(RecordFeed {
            fragments: Fragments::new(alloc)?,
            whole: false,
            large: None,
        })
    }

    /// Takes bytes from the front of a piece up to the end of one record, and says how many. Once a
    /// record was too large, the answer stays the same and nothing is taken.
    pub fn feed(&mut self, piece: &[u8]) -> (usize, Fed)
        ensures exact { Feeds self.old.large self.old piece.now result self.new }
        ensures within { result.0 ≤ length piece.now }
        ensures some { result.1 ≡ Fed.Whole → 0 < result.0 }
    {
        if let Some(len) = self.large {
            return (0, Fed::TooLarge { len });
        }
        if self.whole {
            self.fragments.clear();
            self.whole = false;
        }
        let mut at = 0;
        'parts: while at < piece.len() {
            let (count, progress) = self.fragments.take(&piece[at..]);
            at += count;
            match progress {
                Progress::Goes => {}
                Progress::Ends => {
                    self.whole = true;
                    return (at, Fed::Whole);
                }
                Progress::Passes(len) => {
                    self.large = Some(len);
                    return (at, Fed::TooLarge { len });
                }
            }
        }
        (at, Fed::Need)
    }

    /// The sum that passed the limit, once a record was too large.
    pub fn large(&self) -> Option<u32>
        ensures { result ≡ self.now.large }
    {
        self.large
    }

    /// The record that ended last, after the answer `Whole` and up to the next piece.
    pub fn record(&self) -> &[u8]
        ensures { result.now ≡ self.now.told }
    {
        self.fragments.bytes()
    }
}

/// The header of a record in one fragment (RFC 5531 section 11).
pub fn mark(len: u32) -> [u8; 4]
    requires { len ≤ record_limit }
    ensures { result ≡ mark_of len }
{
    (LAST + len).to_be_bytes()
}

/// What the calls of a feed add up to. A piece brings its first record and then what the bytes after it
/// bring; two pieces bring what both joined bring, wherever the cut is; and what a whole stream brings
/// are the records of its bytes, each its fragments joined (RFC 5531 section 11).
pub fn pieces_join()
    ensures piece { (under : Under) (count : ℕ) (bytes : List ℕ)
        → flow (Open count under) bytes ≡ flow_of count (length bytes) (cut under bytes) }
    ensures cut { (state : State) (first more : List ℕ)
        → flow state (first ++ more) ≡ then_flow (flow state first) (λ next. flow next more) }
    ensures records { (bytes : List ℕ) → told_of (flow (Open 0 fresh) bytes) ≡ records_of bytes }
{}
