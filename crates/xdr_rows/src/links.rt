//! A link in memory that gives at most so many bytes at a time: pumped, and watched.

ghost use Rattle.std.specs.Prelude.{◌+◌, None, Some, ⊤};
ghost use Rattle.outcome.specs.Plan.{planned_faults};

use crate::memory::{sink, source};
use crate::told::{tell, tell_record};
use outcome::Mem;
use row_text::{bytes, number, word};
use rpc_msg::{Down, Got, Handler, RecordFeed, Watched, pump_records};
use std::alloc::Global;
use std::fmt::Write;
use streams::{MemSink, MemSource, Put, Sink, Source, Stream, Take};
use wire_xdr::Octets;

/// A link that gives at most so many bytes at a time.
#[derive(Drop)]
struct CutLink {
    source: MemSource,
    sink: MemSink,
    most: usize,
}

/// A link that gives these bytes, and whose call with the one number fails to read, with the other one to write.
fn cut_link(
    alloc: Global,
    bytes: Vec<u8>,
    most: u32,
    (read_fails, write_fails): (u32, u32),
) -> Mem<CutLink> {
    Ok(CutLink {
        source: source(alloc, bytes, read_fails)?,
        sink: sink(alloc, write_fails)?,
        most: most as usize,
    })
}

impl Stream for CutLink {
    ghost gives = { λ l. record {
      left = Some l.source.left;
      whole = Some l.source.whole;
      faults = planned_faults l.source.plan;
      failing = l.source.plan.failing;
    } };

    ghost takes = { λ l. record {
      taken = Some l.sink.taken;
      pieces = None;
      faults = planned_faults l.sink.plan + l.sink.starved;
      failing = l.sink.plan.failing;
    } };
}

impl Source for CutLink {
    fn take(&mut self, buf: &mut [u8]) -> Take {
        if self.most == 0 {
            return self.source.take(buf);
        }
        let count = buf.len().min(self.most);
        self.source.take(&mut buf[..count])
    }
}

impl Sink for CutLink {
    fn put(&mut self, piece: &[u8]) -> Put {
        self.sink.put(piece)
    }
}

/// Answers each record with one byte, and an empty one with nothing.
#[derive(Drop)]
struct Nine;

impl Handler for Nine {
    ghost answers = { λ _ _ _ _. ⊤ };

    fn on(&mut self, alloc: Global, record_: &[u8]) -> Mem<Octets> {
        let reply: &[u8] = if record_.is_empty() { &[] } else { &[9] };
        Octets::from_slice(alloc, reply)
    }
}

/// `pump MOST BUDGET LEFT READ PUT BYTES`, where the calls with the numbers READ and PUT fail and a budget that is no
/// number is the greatest: how it ended, how many records are left, and what was put.
pub fn pump(alloc: Global, words: &[&str], text: &mut String) -> Mem<()> {
    let fails = (number(words, 4), 0);
    let mut link = cut_link(alloc, bytes(alloc, words, 6)?, number(words, 1), fails)?;
    pump_from(alloc, words, &mut link, text)
}

fn pump_from(alloc: Global, words: &[&str], link: &mut CutLink, text: &mut String) -> Mem<()> {
    let mut sink = sink(alloc, number(words, 5))?;
    pump_to(alloc, words, (link, &mut sink), text)?;
    tell_record(text, sink.bytes())
}

fn pump_to(
    alloc: Global,
    words: &[&str],
    (link, sink): (&mut CutLink, &mut MemSink),
    text: &mut String,
) -> Mem<()> {
    let budget = word(words, 2).parse::<u64>().unwrap_or(u64::MAX);
    let mut left = u64::from(number(words, 3));
    let mut feed = RecordFeed::new(alloc)?;
    let ended = pump_records(alloc, link, sink, &mut feed, &mut Nine, budget, &mut left)?;
    Ok(write!(text, "{ended:?} left {left} put ")?)
}

/// The next record, or why the link is down.
fn next(watched: &mut Watched<CutLink>, text: &mut String) -> Mem<Got> {
    let got = watched.next();
    match got {
        Got::Whole => tell_record(text, watched.record())?,
        Got::Down => tell_down(watched.down(), text)?,
    }
    tell(text, "; ")?;
    Ok(got)
}

fn tell_down(down: Option<Down>, text: &mut String) -> Mem<()> {
    match down {
        Some(down) => {
            let (faults, ended, large) = (down.faults(), down.ended(), down.large());
            Ok(write!(text, "down {faults} {ended} {large}")?)
        }
        None => tell(text, "down and up"),
    }
}

/// `watch MOST READ PUT PUTS BYTES`, of a link that gives at most so many bytes at a time and whose calls with the
/// numbers READ and PUT fail: its first record, so many puts of three bytes, the records behind it until the link is
/// down, that once more, and the bytes that were sent and the takes that were made.
pub fn watch(alloc: Global, words: &[&str], text: &mut String) -> Mem<()> {
    let mut watched = Watched::new(watched_link(alloc, words)?, RecordFeed::new(alloc)?);
    use_link(&mut watched, number(words, 4), text)?;
    tell_end(watched, text)
}

fn watched_link(alloc: Global, words: &[&str]) -> Mem<CutLink> {
    let fails = (number(words, 2), number(words, 3));
    cut_link(alloc, bytes(alloc, words, 5)?, number(words, 1), fails)
}

fn use_link(watched: &mut Watched<CutLink>, puts: u32, text: &mut String) -> Mem<()> {
    let mut got = next(watched, text)?;
    for _ in 0..puts {
        let put = watched.put(b"abc");
        write!(text, "{put:?}; ")?;
    }
    for _ in 0..9 {
        if got == Got::Down {
            break;
        }
        got = next(watched, text)?;
    }
    next(watched, text)?;
    Ok(())
}

fn tell_end(mut watched: Watched<CutLink>, text: &mut String) -> Mem<()> {
    let (sent, came) = (watched.sent(), watched.link().sink.bytes().len());
    let calls = watched.into_link().source.calls();
    Ok(write!(text, "sent {sent} {came} takes {calls}")?)
}
