//! Tables over nets of links and a server of connections, from standard input: a toy machine that gives back what it is told, over
//! connections in memory and over TCP. A line is `CALL = ANSWER`; those that are answered otherwise are printed, and then how
//! many there were. Every expected answer is written by hand.
//!
//! The links of a crowd bring nothing before as many connections were accepted as the line says. So a server that takes one after
//! the other finds them failing, and the line is answered otherwise.
#![tactic(auto)]

mod crowd;
mod dials;
mod memory;
mod run;
mod tcp;
mod toy;

use outcome::Mem;
use row_text::{number, word, words};
use std::alloc::Global;
use std::io;
use std::marker::Sync;
use std::net::{Net, TcpListener, TcpStream};
use std::sync::Wait;
use std::thread::Threads;

/// How many lines were tried, and how many of these were answered otherwise.
#[derive(Clone, Copy)]
struct Tally {
    lines: u32,
    others: u32,
}

impl Tally {
    fn count(&mut self, is_met: bool) {
        self.lines = self.lines.saturating_add(1);
        if !is_met {
            self.others = self.others.saturating_add(1);
        }
    }
}

fn answer<R: Net<Listener = TcpListener, Stream = TcpStream> + Threads + Wait + Sync>(
    rt: &R,
    alloc: Global,
    call: &str,
    text: &mut String,
) -> Mem<()> {
    let words = words(alloc, call)?;
    answer_words(rt, alloc, &words, text)
}

/// The answer to `serve CONNS FAILS CONNECTION..`, `dials FAILS PORTS PORT..`, `crowd CONNS TOGETHER` or `tcp CONNS`.
fn answer_words<R: Net<Listener = TcpListener, Stream = TcpStream> + Threads + Wait + Sync>(
    rt: &R,
    alloc: Global,
    words: &[&str],
    text: &mut String,
) -> Mem<()> {
    let conns = number(words, 1);
    match word(words, 0) {
        "serve" => memory::serve_mem(rt, alloc, words, text),
        "dials" => dials::dials(alloc, words, text),
        "crowd" => crowd::serve_crowd(rt, alloc, conns, number(words, 2), text),
        "tcp" => tcp::serve_tcp(rt, alloc, conns, text),
        _ => Ok(text.push_str("no such call")?),
    }
}

/// Tries a line, and prints it where it is answered otherwise.
fn try_line<R: Net<Listener = TcpListener, Stream = TcpStream> + Threads + Wait + Sync>(
    rt: &R,
    out: &HostRuntime,
    line: &str,
    tally: &mut Tally,
) -> io::Result<()> {
    let Some((call, wanted)) = line.split_once(" = ") else {
        return Ok(());
    };
    let mut text = String::new(out.alloc());
    let given = match answer(rt, out.alloc(), call, &mut text) {
        Ok(()) => text.as_str(),
        Err(_) => "out of memory",
    };
    tally.count(given == wanted);
    tell(out, line, given, wanted)
}

fn tell(out: &HostRuntime, line: &str, given: &str, wanted: &str) -> io::Result<()> {
    if given == wanted {
        return Ok(());
    }
    println!(out; "{line} BUT {given}")
}

fn main(rt: HostRuntime) -> io::Result<()> {
    let mut tally = Tally {
        lines: 0,
        others: 0,
    };
    for line in rt.lines(rt.alloc()) {
        try_line(&rt, &rt, line?.as_str(), &mut tally)?;
    }
    let Tally { lines, others } = tally;
    println!(rt; "{lines} lines, {others} answered otherwise")
}
