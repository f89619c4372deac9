ghost use Rattle.std.specs.Prelude.{◌≡◌};

use callback_links::Line;
use copy_workers::{Gate, Link, Rest, Resting};
use std::marker::Model;
use std::sync::ledger::Ledger;
use std::sync::{Mutex, Wait};
use streams::{Put, Sink, Source, Stream, Take};

/// A worker's link: a way from the source and one to it, a place at the gate for its rests, and the line for what it sends to
/// connections. Contracts see it as its two ways stand.
#[derive(Drop)]
pub struct WorkerLink<'a, R: Wait, B: Ledger, F: Source, T: Sink> {
    rt: &'a R,
    line: &'a Mutex<Line<B, T>>,
    resting: Resting<'a, R>,
    from: F,
    to: T,
}

impl<'a, R: Wait, B: Ledger, F: Source, T: Sink> Model for WorkerLink<'a, R, B, F, T> {
    ghost use Rattle.net_links.specs.Links.{Standing};

    ghost Value = { Standing };

    ghost view = { λ l. record { brings = F.gives l.from; takes = T.takes l.to } };
}

impl<'a, R: Wait, B: Ledger, F: Source, T: Sink> WorkerLink<'a, R, B, F, T> {
    // The link of these two ways.
    pub(crate) fn new(
        rt: &'a R,
        gate: &'a Gate,
        line: &'a Mutex<Line<B, T>>,
        from: F,
        to: T,
    ) -> WorkerLink<'a, R, B, F, T>
        ensures { result ≡ record { brings = F.gives from; takes = T.takes to } }
    {
        WorkerLink {
            rt,
            line,
            resting: Resting::new(rt, gate),
            from,
            to,
        }
    }

    // Its two ways.
    pub(crate) fn halves(self) -> (F, T)
        ensures from { F.gives result.0 ≡ self.entry.brings }
        ensures to { T.takes result.1 ≡ self.entry.takes }
    {
        let WorkerLink { from, to, .. } = self;
        (from, to)
    }
}

impl<'a, R: Wait, B: Ledger, F: Source, T: Sink> Stream for WorkerLink<'a, R, B, F, T> {
    ghost gives = { λ l. l.brings };

    ghost takes = { λ l. l.takes };
}

impl<'a, R: Wait, B: Ledger, F: Source, T: Sink> Source for WorkerLink<'a, R, B, F, T> {
    fn take(&mut self, buf: &mut [u8]) -> Take {
        self.from.take(buf)
    }
}

impl<'a, R: Wait, B: Ledger, F: Source, T: Sink> Sink for WorkerLink<'a, R, B, F, T> {
    fn put(&mut self, piece: &[u8]) -> Put {
        self.to.put(piece)
    }
}

impl<'a, R: Wait, B: Ledger, F: Source, T: Sink + Drop> Link for WorkerLink<'a, R, B, F, T> {
    fn rest(&mut self, rest: Rest) -> bool {
        self.resting.rest(rest)
    }

    fn post(&mut self, conn: u32, bytes: &[u8]) {
        self.line.lock(self.rt).post(conn, bytes);
    }
}
