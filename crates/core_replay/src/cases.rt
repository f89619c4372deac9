//! How cases go.

ghost use Rattle.std.specs.Prelude.{◌≡◌, ◌≢◌, false, IfOk, OnErr};
ghost use Rattle.core_replay.specs.Counting.{one_more, IsAsBefore, IsCounted};

use outcome::Mem;
use std::alloc::Global;
use std::fmt::Write;

/// The case that is replayed, and how the ones before went. At its type's end a count stands still.
#[derive(Drop)]
pub struct Cases {
    name: String,

    /// How many lines were taken.
    lines: u64,

    /// Whether this case was left before its end.
    pub is_left: bool,

    /// Whether a line of this case was told already.
    pub is_told: bool,

    /// How many cases were begun.
    pub begun: u32,

    /// How many of them had a line for which another one was given.
    pub differ: u32,
}

impl Cases {
    pub fn new(alloc: Global) -> Cases
        ensures begun { result.begun ≡ 0 }
        ensures differ { result.differ ≡ 0 }
    {
        Cases {
            name: String::new(alloc),
            lines: 0,
            is_left: false,
            is_told: false,
            begun: 0,
            differ: 0,
        }
    }

    /// Begins the next case.
    pub fn begin(&mut self, alloc: Global, name: &str) -> Mem<()>
        ensures begun { IfOk result (λ _. self.new.begun ≡ one_more self.old.begun) }
        ensures told { IfOk result (λ _. self.new.is_told ≡ false) }
        ensures differ { self.new.differ ≡ self.old.differ }
        ensures err { OnErr result (self.new ≡ self.old) }
    {
        self.name = String::from_str(alloc, name)?;
        self.is_left = false;
        self.is_told = false;
        self.begun = self.begun.saturating_add(1);
        Ok(())
    }

    /// Another line comes.
    pub fn count_line(&mut self)
        ensures { IsAsBefore self.old self.new }
    {
        self.lines = self.lines.saturating_add(1);
    }

    /// Leaves a case at this line, and tells so where nothing is told of the line yet.
    pub fn leave(&mut self, text: &mut String) -> Mem<()>
        ensures { IsAsBefore self.old self.new }
    {
        self.is_left = true;
        if !text.is_empty() {
            return Ok(());
        }
        Ok(write!(text, "{}: stopped at line {}", self.name, self.lines)?)
    }

    /// Compares a line with the one that was given for it, and tells where that is another one.
    pub fn meet(&mut self, line: &str, given: &str, text: &mut String) -> Mem<()>
        ensures same { given.now ≡ line.now → self.new ≡ self.old }
        ensures other { given.now ≢ line.now → IfOk result (λ _. IsCounted self.old self.new) }
    {
        if given == line {
            Ok(())
        } else {
            self.tell(line, given, text)
        }
    }

    /// Counts a case with a line for which another one was given, and tells of it: the first such line of each case.
    pub fn tell(&mut self, line: &str, given: &str, text: &mut String) -> Mem<()>
        ensures counted { IfOk result (λ _. IsCounted self.old self.new) }
        ensures err { OnErr result (self.new ≡ self.old) }
    {
        if self.is_told {
            return Ok(());
        }
        write!(text, "{}: {given} FOR {line}", self.name)?;
        self.is_told = true;
        self.differ = self.differ.saturating_add(1);
        Ok(())
    }
}
