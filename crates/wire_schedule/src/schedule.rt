ghost use Rattle.wire_schedule.specs.ScheduleText.{is_passed, meaning_of, meaning_of_directive};
ghost use Rattle.std.specs.Prelude.{◌≡◌, Some, IfOk, codes, decimal, ◌++◌};

use crate::grammar::read_directive;
use crate::words::first_line;
use crate::{Context, Directive, Entry};
use outcome::Mem;
use std::alloc::Global;
use std::fmt;
use std::marker::Model;

/// The number of the first bad line of a text that is no schedule, counted from 1: the lowest line at
/// which no schedule goes on so.
#[derive(Clone, Copy, PartialEq, Eq)]
pub struct BadLine {
    pub line: u64,
}

impl fmt::Display for BadLine {
    ghost output = { λ bad. Some (codes "bad line " ++ decimal bad.line) };

    fn fmt<W: fmt::Write>(&self, f: &mut fmt::Formatter<W>) -> fmt::Result {
        write!(f, "bad line {}", self.line)
    }
}

/// What one line of a text means.
#[derive(Drop)]
pub(crate) enum Meaning {
    /// It is empty or a comment, and passed over.
    Passed,

    /// It spells what may come next.
    Gives(Directive),

    /// It does not.
    Bad,
}

/// A schedule: what the client, the servers and the network do, line by line. Each event of its lines may come after
/// those before it.
#[derive(Drop)]
pub struct Schedule {
    entries: Vec<Entry>,
}

impl Model for Schedule {
    ghost use Rattle.std.specs.Prelude.{List, IsTrue};
    ghost use Rattle.wire_schedule.specs.declared.directive.Entry.{Entry};
    ghost use Rattle.wire_schedule.specs.Admission.{at_start};
    ghost use Rattle.wire_schedule.specs.Expansion.{are_admitted, events_of_all};

    ghost Value = { List Entry };

    ghost view = { λ s. s.entries.items };

    ghost invariant = { λ s. IsTrue (are_admitted at_start (events_of_all s.entries.items)) };
}

impl Schedule {
    ghost use Rattle.std.specs.Prelude.{◌≡◌, IfOk, IsTrue};
    ghost use Rattle.wire_schedule.specs.Admission.{at_start};
    ghost use Rattle.wire_schedule.specs.Expansion.{are_admitted, events_of_all};
    ghost use Rattle.wire_schedule.specs.ScheduleText.{schedule_of, Reads};

    /// Reads a schedule's text, or finds its first bad line.
    pub fn parse(alloc: Global, text: &[u8]) -> Mem<Result<Schedule, BadLine>>
        ensures { IfOk result (λ read. Reads read (schedule_of text.now)) }
    {
        let mut entries = Vec::new(alloc);
        let mut context = Context::start();
        let mut rest = text;
        let mut number = 0;
        while !rest.is_empty() {
            let (line, more) = first_line(rest);
            number += 1;
            match read_line(alloc, &context, line)? {
                Meaning::Passed => {}
                Meaning::Gives(directive) => {
                    context = context.after_directive(&directive);
                    entries.push(Entry {
                        line: number,
                        directive,
                    })?;
                }
                Meaning::Bad => return Ok(Err(BadLine { line: number })),
            }
            rest = more;
        }
        Ok(Ok(Schedule { entries }))
    }

    /// What its lines give, in order.
    pub fn entries(&self) -> &[Entry]
        ensures same { result.now ≡ self.now }
        ensures admitted { IsTrue (are_admitted at_start (events_of_all result.now)) }
    {
        self.entries.as_slice()
    }
}

/// Reads one line, after the lines that left this context.
#[tactic(auto, unfolding(crate::specs::ScheduleText::meaning_of))]
fn read_line(alloc: Global, context: &Context, line: &[u8]) -> Mem<Meaning>
    ensures { IfOk result (λ meaning. meaning ≡ meaning_of context.now line.now) }
{
    if is_passed(line) {
        return Ok(Meaning::Passed);
    }
    let directive = read_directive(alloc, line)?;
    Ok(meaning_of_directive(context, directive))
}

/// What a line means that gives this, or nothing.
fn meaning_of_directive(context: &Context, directive: Option<Directive>) -> Meaning
    ensures { result ≡ meaning_of_directive context.now directive }
{
    match directive {
        None => Meaning::Bad,
        Some(directive) => {
            if context.fits(&directive) {
                Meaning::Gives(directive)
            } else {
                Meaning::Bad
            }
        }
    }
}

/// Whether a line is passed over.
fn is_passed(line: &[u8]) -> bool
    ensures { result ≡ is_passed line.now }
{
    matches!(line, [] | [b'#', ..])
}
