//! Texts of schedules (`wire_schedule`): what they are read as, or the line at which they are refused, what their lines
//! give and what they leave open.
//!
//! In a text `;` stands for a newline. What the clauses of that crate say of all texts isn't repeated: the lines are those
//! by which a reader can judge its definitions.

use crate::fields::tell;
use outcome::Mem;
use std::alloc::Global;
use std::fmt::Write;
use wire_schedule::{BadLine, Context, Directive, Entry, Schedule};

/// The two lines that stand before all others.
const VOLUMES: &str = "volume s 2 8\nvolume d 2 8\n";

/// A text that grows from line to line.
#[derive(Drop)]
pub struct ScheduleLines {
    text: String,
}

impl ScheduleLines {
    pub fn new(alloc: Global) -> ScheduleLines {
        ScheduleLines {
            text: String::new(alloc),
        }
    }

    /// The answers to `read TEXT`, and to `after TEXT`, which reads it after both volumes; `given TEXT` and `left TEXT`, with
    /// what its lines give and what they leave open; `begin`, which keeps both volumes; and `add TIMES TEXT`.
    pub fn answer(&mut self, alloc: Global, call: &str, text: &mut String) -> Mem<()> {
        let (kind, rest) = call.split_once(' ').unwrap_or((call, ""));
        match kind {
            "begin" => self.begin(text),
            "add" => self.add(alloc, rest, text),
            _ => read(alloc, kind, rest, text),
        }
    }

    fn begin(&mut self, text: &mut String) -> Mem<()> {
        self.text.clear();
        self.text.push_str(VOLUMES)?;
        tell(text, "begun")
    }

    /// `TIMES TEXT`: the kept text, with this one so many times over at its end, is read.
    fn add(&mut self, alloc: Global, call: &str, text: &mut String) -> Mem<()> {
        let (times, added) = call.split_once(' ').unwrap_or((call, ""));
        for _ in 0..times.parse::<u32>().unwrap_or(0) {
            push_lines(added, &mut self.text)?;
        }
        tell_read(alloc, "read", self.text.as_str(), text)
    }
}

/// Adds a text with its newlines.
fn push_lines(added: &str, lines: &mut String) -> Mem<()> {
    for mark in added.chars() {
        lines.push(if mark == ';' { '\n' } else { mark })?;
    }
    Ok(())
}

fn read(alloc: Global, kind: &str, rest: &str, text: &mut String) -> Mem<()> {
    let front = if kind == "after" { VOLUMES } else { "" };
    let mut lines = String::from_str(alloc, front)?;
    push_lines(rest, &mut lines)?;
    tell_read(alloc, kind, lines.as_str(), text)
}

fn tell_read(alloc: Global, kind: &str, lines: &str, text: &mut String) -> Mem<()> {
    match Schedule::parse(alloc, lines.as_bytes())? {
        Ok(schedule) => tell_entries(kind, schedule.entries(), text),
        Err(bad) => tell_bad(bad, text),
    }
}

fn tell_bad(bad: BadLine, text: &mut String) -> Mem<()> {
    Ok(write!(text, "{bad}")?)
}

fn tell_entries(kind: &str, entries: &[Entry], text: &mut String) -> Mem<()> {
    match kind {
        "read" | "after" => Ok(write!(text, "entries {}", entries.len())?),
        "given" => tell_given(entries, text),
        "left" => tell_left_open(entries, text),
        _ => tell(text, "no such call"),
    }
}

fn tell_given(entries: &[Entry], text: &mut String) -> Mem<()> {
    Ok(write!(text, "{entries:?}")?)
}

fn tell_left_open(entries: &[Entry], text: &mut String) -> Mem<()> {
    let mut context = Context::start();
    for entry in entries {
        match next(context, &entry.directive) {
            Some(next) => context = next,
            None => return tell_unfit(entry.line, text),
        }
    }
    tell_context(&context, text)
}

fn tell_unfit(line: u64, text: &mut String) -> Mem<()> {
    Ok(write!(text, "line {line} doesn't fit")?)
}

/// The context after a line, where it fits. A line of one event is asked event by event.
fn next(context: Context, directive: &Directive) -> Option<Context> {
    match directive {
        Directive::Once(event) if context.admits(event) => Some(context.after(event)),
        Directive::Once(_) => None,
        _ if context.fits(directive) => Some(context.after_directive(directive)),
        _ => None,
    }
}

/// The volumes that are there, how many writes and commits and how many events there were, and the copies that were begun.
fn tell_context(context: &Context, text: &mut String) -> Mem<()> {
    write!(
        text,
        "source {:?} dest {:?} writes {} events {}",
        context.source, context.dest, context.writes, context.events
    )?;
    tell_begun(&context.begun, text)
}

fn tell_begun(begun: &[bool], text: &mut String) -> Mem<()> {
    for (copy, is_begun) in begun.iter().enumerate() {
        if *is_begun {
            write!(text, " copy {copy}")?;
        }
    }
    Ok(())
}
