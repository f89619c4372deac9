ghost use Rattle.std.specs.Prelude.{◌≡◌, ◌+◌, ◌<◌, ◌≤◌, [], None};

use crate::line::Line;
use std::marker::Model;
use std::sync::ledger::{Ledger, Share};
use std::sync::{Mutex, Wait};
use streams::{Put, Sink, Stream};

/// A connection's own handle of its way, which stands in a line. As a sink it tells nothing but how many of its puts failed. It takes
/// each piece whole, and holds the lock until all of it is out.
#[derive(Drop)]
pub struct Sending<'a, R, B: Ledger, T: Sink> {
    rt: &'a R,
    line: &'a Mutex<Line<B, T>>,
    mine: Share<B>,
    failed: u64,
}

impl<'a, R, B: Ledger, T: Sink> Model for Sending<'a, R, B, T> {
    ghost use Rattle.std.specs.Prelude.{ℕ, ◌≡◌, ◌+◌, ◌<◌};

    ghost Value = { ℕ };

    ghost view = { λ s. s.failed };

    ghost invariant = { λ s. record {
      whole : s.mine.parts ≡ B.parts;
      part : 0 < s.mine.parts;
      amount : s.mine.amount ≡ s.failed + 1;
    } };
}

impl<'a, R: Wait, B: Ledger, T: Sink + Drop> Sending<'a, R, B, T> {
    /// Puts the way of a connection into the line, which has none. The share is all of the line's ledger.
    pub fn open(
        rt: &'a R,
        line: &'a Mutex<Line<B, T>>,
        mine: Share<B>,
        conn: u32,
        to: T,
    ) -> Sending<'a, R, B, T>
        requires whole { mine.parts ≡ B.parts }
        requires part { 0 < mine.parts }
        requires none { mine.amount ≡ 0 }
        ensures { result ≡ 0 }
    {
        let mut mine = mine;
        line.lock(rt).fill(&mut mine, conn, to);
        Sending {
            rt,
            line,
            mine,
            failed: 0,
        }
    }

    /// Takes the way out of the line again. It counted as many failed puts as the connection did at least.
    pub fn close(self) -> (Share<B>, T)
        ensures whole { result.0.parts ≡ B.parts }
        ensures none { result.0.amount ≡ 0 }
        ensures failed { self.entry ≤ (T.takes result.1).faults }
    {
        let Sending {
            rt,
            line,
            mine,
            failed,
        } = self;
        let mut mine = mine;
        let to = line.lock(rt).empty(&mut mine, failed);
        (mine, to)
    }
}

impl<'a, R, B: Ledger, T: Sink> Stream for Sending<'a, R, B, T> {
    ghost takes = { λ s. record { taken = None; pieces = None; faults = s; failing = [] } };
}

impl<'a, R: Wait, B: Ledger, T: Sink + Drop> Sink for Sending<'a, R, B, T> {
    fn put(&mut self, piece: &[u8]) -> Put {
        let put = self
            .line
            .lock(self.rt)
            .put(&mut self.mine, &mut self.failed, piece);
        if put {
            return Put::Put(piece.len());
        }
        Put::Failed
    }
}
