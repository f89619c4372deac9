//! A server over a net in memory, and what is told of it.

use crate::run::run;
use link_server::Tally;
use net_links::{Connection, HungLink, MemNet};
use outcome::Mem;
use row_text::{bytes, number, word};
use std::alloc::Global;
use std::collections::VecDeque;
use std::fmt::Write;
use std::marker::Sync;
use std::sync::Wait;
use std::thread::Threads;

/// `CONNS FAILS CONNECTION..`: why no more were accepted, how many were, how many of them starved, and the records that are left;
/// then of each connection that was hung up the bytes that it took and how many it has left, as these sort.
pub fn serve_mem<R: Threads + Wait + Sync>(
    rt: &R,
    alloc: Global,
    words: &[&str],
    text: &mut String,
) -> Mem<()> {
    let mut net = net_of(alloc, words)?;
    let tally = run(rt, alloc, number(words, 1), &mut net);
    tell_net(alloc, &tally, &net, text)
}

/// The net of a line.
fn net_of(alloc: Global, words: &[&str]) -> Mem<MemNet> {
    let fails = numbers(alloc, word(words, 2))?;
    let coming = coming(alloc, words)?;
    MemNet::new(alloc, coming, Vec::new(alloc), fails, Vec::new(alloc))
}

/// The connections of a line.
fn coming(alloc: Global, words: &[&str]) -> Mem<VecDeque<Connection>> {
    let mut coming = VecDeque::new(alloc);
    for word in words.iter().skip(3) {
        coming.push_back(connection(alloc, word)?)?;
    }
    Ok(coming)
}

/// A connection, as `BYTES/TAKES/PUTS`: parts in hex with a `+` between them, and the numbers of the calls that are to fail.
fn connection(alloc: Global, word: &str) -> Mem<Connection> {
    let (parts, fails) = word.split_once('/').unwrap_or((word, ""));
    let (takes, puts) = fails.split_once('/').unwrap_or((fails, ""));
    Ok(Connection {
        bytes: joined(alloc, parts)?,
        takes: numbers(alloc, takes)?,
        puts: numbers(alloc, puts)?,
    })
}

/// The bytes of parts in hex with a `+` between them.
fn joined(alloc: Global, parts: &str) -> Mem<Vec<u8>> {
    let mut hex = Vec::new(alloc);
    for part in parts.split('+') {
        hex.push(part)?;
    }
    bytes(alloc, &hex, 0)
}

/// Numbers with commas between them. What isn't one is left out.
pub fn numbers(alloc: Global, text: &str) -> Mem<Vec<u64>> {
    let mut numbers = Vec::new(alloc);
    for word in text.split(',') {
        if let Ok(number) = word.parse::<u64>() {
            numbers.push(number)?;
        }
    }
    Ok(numbers)
}

/// What a server did.
pub fn tell(tally: &Tally, text: &mut String) -> Mem<()> {
    let Tally {
        accepted,
        starved,
        left,
        stop,
    } = *tally;
    Ok(write!(text, "{stop:?} {accepted} {starved} {left}")?)
}

fn tell_net(alloc: Global, tally: &Tally, net: &MemNet, text: &mut String) -> Mem<()> {
    tell(tally, text)?;
    tell_hung(alloc, net.hung(), text)
}

fn tell_hung(alloc: Global, hung: &[HungLink], text: &mut String) -> Mem<()> {
    let mut lines = Vec::new(alloc);
    for link in hung {
        lines.push(line_of(alloc, link)?)?;
    }
    lines.sort()?;
    for line in &lines {
        text.push_str(line.as_str())?;
    }
    Ok(())
}

fn line_of(alloc: Global, link: &HungLink) -> Mem<String> {
    let mut line = String::new(alloc);
    tell_link(link, &mut line)?;
    Ok(line)
}

fn tell_link(link: &HungLink, text: &mut String) -> Mem<()> {
    text.push_str("; [")?;
    for byte in link.taken() {
        write!(text, "{byte:02x}")?;
    }
    Ok(write!(text, "] {}", link.left().len())?)
}
