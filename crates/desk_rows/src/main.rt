//! Tables over workers of a real destination, from standard input: over a source, a destination and a client in memory. A line is
//! `CALL = ANSWER`; those that are answered otherwise are printed, and then how many there were. Where there are arguments, they are
//! the words of one call, whose answer is printed.
//!
//! A call is `KIND WORKERS BYTES COPIED`, with one word more in `failing`, or `bench WORKERS MEBIBYTES`, which `bench/workers.py`
//! times. The kinds are those of [`Links`](crate::plan::Links). Workers that run one after the other find their links failing at a
//! line of `together`, and it is answered otherwise.
//!
//! A [`Plan`](crate::plan::Plan) says what is copied and by how many workers, and [`run`](crate::running::run) does it: the client's
//! copies are taken by the destination, workers carry them out, each at a link of its own to the source, the client takes leave of
//! both servers, and then the files are compared, where the plan says so. The source's file is written into its volume before the
//! source is opened. Time stands still.
#![tactic(auto)]

mod calls;
mod ends;
mod link;
mod making;
mod plan;
mod ran;
mod reads;
mod room;
mod running;
mod telling;

use crate::calls::answered;
use outcome::Mem;
use std::env::{self, Env};
use std::io;

/// How many lines were tried, and how many of these were answered otherwise.
#[derive(Clone, Copy)]
struct Tally {
    tried: u32,
    others: u32,
}

/// Counts a row of which this was told, and prints it where that is another answer.
fn compare(
    rt: &HostRuntime,
    tally: &mut Tally,
    line: &str,
    wanted: &str,
    given: &str,
) -> io::Result<()> {
    tally.tried = tally.tried.saturating_add(1);
    if given == wanted {
        return Ok(());
    }
    tally.others = tally.others.saturating_add(1);
    println!(rt; "{line} BUT {given}")
}

/// What is given for a call of which this was told.
fn given(told: Mem<()>, text: &str) -> &str {
    match told {
        Ok(()) => text,
        Err(_) => "out of memory",
    }
}

/// The call whose words the arguments are.
fn call_of(rt: &(impl Env + AllocGlobal)) -> io::Result<String> {
    let mut call = String::new(rt.alloc());
    for word in env::args(rt)?.skip(1) {
        call.push_str(word.as_str())?;
        call.push_str(" ")?;
    }
    Ok(call)
}

fn main(rt: HostRuntime) -> io::Result<()> {
    let call = call_of(&rt)?;
    if !call.is_empty() {
        let mut text = String::new(rt.alloc());
        let told = answered(&rt, rt.alloc(), call.as_str(), &mut text);
        return println!(rt; "{}", given(told, text.as_str()));
    }
    let mut tally = Tally {
        tried: 0,
        others: 0,
    };
    for line in rt.lines(rt.alloc()) {
        let line = line?;
        let Some((call, wanted)) = line.as_str().split_once(" = ") else {
            continue;
        };
        let mut text = String::new(rt.alloc());
        let told = answered(&rt, rt.alloc(), call, &mut text);
        compare(
            &rt,
            &mut tally,
            line.as_str(),
            wanted,
            given(told, text.as_str()),
        )?;
    }
    println!(rt;
        "{} lines, {} answered otherwise",
        tally.tried, tally.others
    )
}
