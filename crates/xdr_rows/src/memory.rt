//! Sources, sinks and draws in memory, of which the call with a number fails.

use crate::told::{tell, tell_hex};
use outcome::Mem;
use row_text::{bytes, number};
use std::alloc::Global;
use std::fmt::Write;
use streams::{
    CountDraws, Drawn, Draws, MemDraws, MemSink, MemSource, Sink, Source, Take, put_all,
};

/// The numbers of the calls that fail: this one.
fn failing(alloc: Global, number: u32) -> Mem<Vec<u64>> {
    Ok(vec![in alloc; u64::from(number)]?)
}

/// A source of these bytes.
pub fn source(alloc: Global, bytes: Vec<u8>, fails: u32) -> Mem<MemSource> {
    Ok(MemSource::new(bytes, failing(alloc, fails)?))
}

/// A sink that took nothing.
pub fn sink(alloc: Global, fails: u32) -> Mem<MemSink> {
    Ok(MemSink::new(alloc, failing(alloc, fails)?))
}

/// `takes FAILS TIMES BYTES`: so many takes with a room of four bytes, how many bytes are left, and how many calls there were.
pub fn takes(alloc: Global, words: &[&str], text: &mut String) -> Mem<()> {
    let mut source = source(alloc, bytes(alloc, words, 3)?, number(words, 1))?;
    for _ in 0..number(words, 2) {
        take(&mut source, text)?;
    }
    let (left, calls) = (source.bytes().len(), source.calls());
    Ok(write!(text, "left {left} calls {calls}")?)
}

fn take(source: &mut MemSource, text: &mut String) -> Mem<()> {
    let mut room = [0; 4];
    match source.take(&mut room) {
        Take::Took(count) => tell_hex(text, &room[..count])?,
        Take::End => tell(text, "end")?,
        Take::Failed => tell(text, "failed")?,
    }
    tell(text, "; ")
}

/// `sink FAILS PUT..`: the puts, each to its end, the bytes that came in, and how many calls there were.
pub fn puts(alloc: Global, words: &[&str], text: &mut String) -> Mem<()> {
    let mut sink = sink(alloc, number(words, 1))?;
    for word in words.iter().skip(2) {
        write!(text, "{:?}; ", put_all(&mut sink, word.as_bytes()))?;
    }
    tell_hex(text, sink.bytes())?;
    Ok(write!(text, " calls {}", sink.calls())?)
}

/// So many draws, as a generic caller makes them.
fn drawn<W: Draws>(draws: &mut W, times: u32, text: &mut String) -> Mem<()> {
    for _ in 0..times {
        match draws.draw() {
            Drawn::Got(bytes) => tell_hex(text, &bytes)?,
            Drawn::Failed => tell(text, "failed")?,
        }
        tell(text, "; ")?;
    }
    Ok(())
}

/// The digests of a counter.
pub fn digests(times: u32, text: &mut String) -> Mem<()> {
    let mut draws = CountDraws::new();
    drawn(&mut draws, times, text)?;
    Ok(write!(text, "count {}", draws.count())?)
}

/// Draws from two that lie ready, ones and twos.
pub fn draws(alloc: Global, fails: u32, times: u32, text: &mut String) -> Mem<()> {
    let ready = vec![in alloc; [1; 32], [2; 32]]?;
    let mut draws = MemDraws::new(ready, failing(alloc, fails)?);
    drawn(&mut draws, times, text)?;
    Ok(write!(text, "calls {} left {}", draws.calls(), draws.left().len())?)
}
