//! Connections that bring nothing before a crowd was accepted.

ghost use Rattle.std.specs.Prelude.{◌≡◌, ◌≤◌, [], None};

use crate::memory::tell;
use crate::run::run;
use link_server::Tally;
use net_links::{Dialed, Halves, Net};
use outcome::Mem;
use std::alloc::Global;
use std::fmt::Write;
use std::marker::Sync;
use std::sync::Wait;
use std::sync::atomic::{AtomicU64, Ordering};
use std::thread::{Threads, yield_now};
use streams::{Put, Sink, Source, Stream, Take};

/// A record of four bytes, behind its mark (RFC 5531 section 11).
const RECORD: [u8; 8] = [0x80, 0, 0, 4, 1, 2, 3, 4];

/// How often a link looks whether the crowd has come.
const LOOKS: u32 = 1_000_000;

/// How many connections were accepted, and how many bytes were put to them.
#[derive(Drop)]
struct Counts {
    accepted: AtomicU64,
    put: AtomicU64,
}

/// A net whose connections bring a record once so many were accepted.
#[derive(Drop)]
struct CrowdNet<'a> {
    counts: &'a Counts,
    together: u64,
    faults: u64,
}

/// The way from the other end.
#[derive(Drop)]
pub struct CrowdFrom<'a> {
    counts: &'a Counts,
    together: u64,
    at: usize,
    faults: u64,
}

/// The way to the other end.
#[derive(Drop)]
pub struct CrowdTo<'a> {
    counts: &'a Counts,
}

/// Both.
#[derive(Drop)]
pub struct CrowdLink<'a> {
    from: CrowdFrom<'a>,
    to: CrowdTo<'a>,
}

/// Whether so many were accepted, now or soon.
fn has_come(accepted: &AtomicU64, together: u64) -> bool {
    for _ in 0..LOOKS {
        if accepted.load(Ordering::SeqCst) >= together {
            return true;
        }
        yield_now();
    }
    false
}

impl<'a> Stream for CrowdFrom<'a> {
    ghost gives = { λ l. record { left = None; whole = None; faults = l.faults; failing = [] } };
}

impl<'a> Source for CrowdFrom<'a> {
    fn take(&mut self, buf: &mut [u8]) -> Take {
        if buf.is_empty() {
            return Take::Took(0);
        }
        if self.at >= 8 {
            return Take::End;
        }
        if !has_come(&self.counts.accepted, self.together) {
            self.faults = self.faults.saturating_add(1);
            return Take::Failed;
        }
        buf[0] = RECORD[self.at];
        self.at += 1;
        Take::Took(1)
    }
}

impl<'a> Stream for CrowdTo<'a> {}

impl<'a> Sink for CrowdTo<'a> {
    fn put(&mut self, piece: &[u8]) -> Put {
        self.counts
            .put
            .fetch_add(piece.len() as u64, Ordering::SeqCst);
        Put::Put(piece.len())
    }
}

impl<'a> Stream for CrowdLink<'a> {
    ghost gives = { λ l. record { left = None; whole = None; faults = l.from.faults; failing = [] } };
}

impl<'a> Source for CrowdLink<'a> {
    fn take(&mut self, buf: &mut [u8]) -> Take {
        self.from.take(buf)
    }
}

impl<'a> Sink for CrowdLink<'a> {
    fn put(&mut self, piece: &[u8]) -> Put {
        self.to.put(piece)
    }
}

impl<'a> Halves for CrowdLink<'a> {
    type From = CrowdFrom<'a>;

    type To = CrowdTo<'a>;

    fn halves(self) -> (CrowdFrom<'a>, CrowdTo<'a>) {
        let CrowdLink { from, to } = self;
        (from, to)
    }
}

impl<'a> Net for CrowdNet<'a> {
    type From = CrowdFrom<'a>;

    type To = CrowdTo<'a>;

    type Link = CrowdLink<'a>;

    ghost Told = { ⊥ };

    ghost coming = { λ _. 0 };

    ghost accepted = { λ _. 0 };

    ghost up = { λ _. 0 };

    ghost hung = { λ _. [] };

    ghost faults = { λ n. n.faults };

    fn accept(&mut self) -> Dialed<CrowdLink<'a>> {
        self.counts.accepted.fetch_add(1, Ordering::SeqCst);
        let (counts, together) = (self.counts, self.together);
        let from = CrowdFrom {
            counts,
            together,
            at: 0,
            faults: 0,
        };
        Dialed::Up(CrowdLink {
            from,
            to: CrowdTo { counts },
        })
    }

    fn dial(&mut self, _port: u16) -> Dialed<CrowdLink<'a>> {
        self.faults = self.faults.saturating_add(1);
        Dialed::Failed
    }

    fn hang_up(&mut self, _from: CrowdFrom<'a>, _to: CrowdTo<'a>) {}
}

/// Serves so many connections, which bring their records once so many were accepted: what the server did, and how many bytes were
/// put.
pub fn serve_crowd<R: Threads + Wait + Sync>(
    rt: &R,
    alloc: Global,
    conns: u32,
    together: u32,
    text: &mut String,
) -> Mem<()> {
    let (tally, put) = run_crowd(rt, alloc, conns, together);
    tell(&tally, text)?;
    Ok(write!(text, "; {put} put")?)
}

fn run_crowd<R: Threads + Wait + Sync>(
    rt: &R,
    alloc: Global,
    conns: u32,
    together: u32,
) -> (Tally, u64) {
    let counts = Counts {
        accepted: AtomicU64::new(0),
        put: AtomicU64::new(0),
    };
    let mut net = CrowdNet {
        counts: &counts,
        together: u64::from(together),
        faults: 0,
    };
    let tally = run(rt, alloc, conns, &mut net);
    (tally, counts.put.load(Ordering::SeqCst))
}
