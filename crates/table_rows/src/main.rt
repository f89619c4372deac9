//! Tables of what one call answers, from standard input: privileges, grants, jobs, the sessions and opens of a server, and
//! what the text of a schedule is read as. Prints each line whose answer is another one here, with that answer, and then
//! how many lines there were.
//!
//! A line is `CALL = ANSWER`, or a call alone where there is nothing to answer; one of privileges is
//! `NAME BYTES ANSWER`. A line `# table NAME` says of which table the next ones are. Empty lines and other lines that begin
//! with `#` are passed over. Each table is kept from line to line. Bytes are hex, and `-` is none.
//!
//! The lines of privileges, grants and jobs were made by another program than this one or written down from RFC 7862 and
//! `docs/protocol.md`; those of a server from RFC 8881 and `docs/protocol.md`; those of schedules from `docs/formats.md`.
#![tactic(auto)]

mod creates;
mod fields;
mod grants;
mod jobs;
mod opens;
mod privileges;
mod schedules;
mod server;
mod sessions;
mod slots;
mod tables;

use crate::tables::Tables;
use outcome::Mem;
use std::io;

/// How many lines were tried, and how many of these were answered otherwise.
#[derive(Clone, Copy)]
struct Tally {
    lines: u32,
    others: u32,
}

impl Tally {
    fn count(&mut self, is_met: bool) {
        self.lines = self.lines.saturating_add(1);
        if !is_met {
            self.others = self.others.saturating_add(1);
        }
    }
}

/// Tries each line of standard input, and prints how many there were.
fn try_lines(rt: &HostRuntime, tables: &mut Tables) -> io::Result<()> {
    let mut tally = Tally {
        lines: 0,
        others: 0,
    };
    for line in rt.lines(rt.alloc()) {
        try_line(rt, tables, line?.as_str(), &mut tally)?;
    }
    let Tally { lines, others } = tally;
    println!(rt; "{lines} lines, {others} answered otherwise")
}

/// Tries a line, where it isn't passed over.
fn try_line(
    rt: &HostRuntime,
    tables: &mut Tables,
    line: &str,
    tally: &mut Tally,
) -> io::Result<()> {
    if line.starts_with('#') {
        tables.turn(line);
        Ok(())
    } else if line.is_empty() {
        Ok(())
    } else {
        call(rt, tables, line, tally)
    }
}

fn call(rt: &HostRuntime, tables: &mut Tables, line: &str, tally: &mut Tally) -> io::Result<()> {
    let mut text = String::new(rt.alloc());
    let is_met = tables.is_met(rt.alloc(), line, &mut text) == Ok(true);
    tally.count(is_met);
    if is_met {
        Ok(())
    } else {
        println!(rt; "{line} BUT {text}")
    }
}

fn main(rt: HostRuntime) -> io::Result<()> {
    match Tables::new(rt.alloc()) {
        Ok(mut tables) => try_lines(&rt, &mut tables),
        Err(_) => println!(rt; "out of memory"),
    }
}
