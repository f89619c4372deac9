//! Links in memory that reply once a crowd has come.

ghost use Rattle.std.specs.Prelude.{◌<◌, [], None};

use copy_workers::{Link, Rest};
use std::sync::atomic::{AtomicU64, Ordering};
use std::thread::yield_now;
use streams::{Put, Sink, Source, Stream, Take};

/// A record of eight bytes, behind its mark (RFC 5531 section 11). Its first word is that of each call of the toy machine.
const REPLY: [u8; 12] = [0x80, 0, 0, 8, b'c', b'a', b'l', b'l', 5, 6, 7, 8];

/// How often a link looks whether the crowd has come.
const LOOKS: u32 = 1_000_000;

/// A link that counts the marks that are put to all links, and replies once there were enough.
#[derive(Drop)]
pub struct CrowdLink<'a> {
    marks: &'a AtomicU64,
    together: u64,
    at: usize,
    faults: u64,
    ghost within: { at < 12 },
}

impl<'a> CrowdLink<'a> {
    pub fn new(marks: &'a AtomicU64, together: u64) -> CrowdLink<'a> {
        CrowdLink {
            marks,
            together,
            at: 0,
            faults: 0,
        }
    }
}

/// Whether so many marks were put, now or soon.
fn has_come(marks: &AtomicU64, together: u64) -> bool {
    for _ in 0..LOOKS {
        if marks.load(Ordering::SeqCst) >= together {
            return true;
        }
        yield_now();
    }
    false
}

impl<'a> Stream for CrowdLink<'a> {
    ghost gives = { λ l. record { left = None; whole = None; faults = l.faults; failing = [] } };
}

impl<'a> Source for CrowdLink<'a> {
    fn take(&mut self, buf: &mut [u8]) -> Take {
        if buf.is_empty() {
            return Take::Took(0);
        }
        if !has_come(self.marks, self.together) {
            self.faults = self.faults.saturating_add(1);
            return Take::Failed;
        }
        buf[0] = REPLY[self.at];
        self.at = (self.at + 1) % 12;
        Take::Took(1)
    }
}

impl<'a> Sink for CrowdLink<'a> {
    fn put(&mut self, piece: &[u8]) -> Put {
        if piece.len() == 4 {
            self.marks.fetch_add(1, Ordering::SeqCst);
        }
        Put::Put(piece.len())
    }
}

impl<'a> Link for CrowdLink<'a> {
    fn rest(&mut self, _rest: Rest) -> bool {
        yield_now();
        true
    }

    fn post(&mut self, _conn: u32, _bytes: &[u8]) {}
}
