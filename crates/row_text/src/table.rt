ghost use Rattle.std.specs.Prelude.{◌≡◌, ◌≢◌, ◌+◌, ◌-◌, ◌^◌, min, true, false, if◌then◌else◌, IsOkAnd, IfOk, string_bytes};

use outcome::Mem;
use std::alloc::Global;
use std::io;

/// Answers the calls of a table.
pub trait Rows {
    /// What a call answers, as text.
    fn answer(&mut self, alloc: Global, call: &str) -> Mem<String>;
}

/// How many lines were tried, and how many of these were answered otherwise. At its type's end a count stands still.
#[derive(Clone, Copy)]
struct Tally {
    lines: u32,
    others: u32,
}

impl Tally {
    /// Counts a line.
    fn count(&mut self, is_right: bool)
        ensures lines { self.new.lines ≡ min (self.old.lines + 1) (2 ^ 32 - 1) }
        ensures others { self.new.others ≡ (if is_right then self.old.others else min (self.old.others + 1) (2 ^ 32 - 1)) }
    {
        self.lines = self.lines.saturating_add(1);
        if !is_right {
            self.others = self.others.saturating_add(1);
        }
    }
}

/// Tries each line of standard input, prints those whose answer is another one here with that answer, and then how
/// many lines there were.
pub fn compare<R: Rows>(rt: &HostRuntime, rows: &mut R) -> io::Result<()> {
    let mut tally = Tally {
        lines: 0,
        others: 0,
    };
    for line in rt.lines(rt.alloc()) {
        let line = line?;
        try_line(rt, rows, line.as_str(), &mut tally)?;
    }
    let Tally { lines, others } = tally;
    println!(rt; "{lines} lines, {others} answered otherwise")
}

/// Tries a line.
fn try_line<R: Rows>(
    rt: &HostRuntime,
    rows: &mut R,
    line: &str,
    tally: &mut Tally,
) -> io::Result<()> {
    let Some((call, wanted)) = line.split_once(" = ") else {
        return Ok(());
    };
    let given = rows.answer(rt.alloc(), call);
    let right = is_right(&given, wanted);
    tally.count(right);
    if right {
        Ok(())
    } else {
        tell(rt, line, &given)
    }
}

/// Prints a line with what it was answered by.
fn tell(rt: &HostRuntime, line: &str, given: &Mem<String>) -> io::Result<()> {
    match given {
        Ok(given) => println!(rt; "{line} BUT {given}"),
        Err(_) => println!(rt; "{line} BUT out of memory"),
    }
}

/// Whether a call was answered with the text that is wanted.
fn is_right(given: &Mem<String>, wanted: &str) -> bool
    ensures right { result ≡ true → IsOkAnd given.now (λ text. string_bytes text ≡ wanted.now) }
    ensures wrong { result ≡ false → IfOk given.now (λ text. string_bytes text ≢ wanted.now) }
{
    match given {
        Ok(given) => given.as_str() == wanted,
        Err(_) => false,
    }
}
