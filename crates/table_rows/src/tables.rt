//! The tables, and which of them is called.

use crate::grants::GrantLines;
use crate::jobs::JobLines;
use crate::privileges;
use crate::schedules::ScheduleLines;
use crate::server::ServerLines;
use outcome::Mem;
use row_text::words;
use std::alloc::Global;

/// The names of the tables.
#[derive(Clone, Copy)]
enum Table {
    Privileges,
    Grants,
    Jobs,
    Server,
    Schedules,
}

/// The tables that the lines speak of.
#[derive(Drop)]
pub struct Tables {
    now: Table,
    grants: GrantLines,
    jobs: JobLines,
    server: ServerLines,
    schedules: ScheduleLines,
}

impl Tables {
    pub fn new(alloc: Global) -> Mem<Tables> {
        Ok(Tables {
            now: Table::Privileges,
            grants: GrantLines::new(alloc)?,
            jobs: JobLines::new(alloc, 0)?,
            server: ServerLines::new(alloc, 1)?,
            schedules: ScheduleLines::new(alloc),
        })
    }

    /// A line that begins with `#` may name the table of the next ones.
    pub fn turn(&mut self, line: &str) {
        match line {
            "# table privileges" => self.now = Table::Privileges,
            "# table grants" => self.now = Table::Grants,
            "# table jobs" => self.now = Table::Jobs,
            "# table server" => self.now = Table::Server,
            "# table schedules" => self.now = Table::Schedules,
            _ => {}
        }
    }

    /// Whether the answer of a line, which is told, is that of the call.
    pub fn is_met(&mut self, alloc: Global, line: &str, text: &mut String) -> Mem<bool> {
        let (call, wanted) = self.parts(line);
        self.call(alloc, call, text)?;
        Ok(text.as_str() == wanted)
    }

    fn call(&mut self, alloc: Global, call: &str, text: &mut String) -> Mem<()> {
        if let Table::Schedules = self.now {
            return self.schedules.answer(alloc, call, text);
        }
        let words = words(alloc, call)?;
        self.answer(alloc, words.as_slice(), text)
    }

    /// The call of a line, and its answer, which is empty where there is none.
    fn parts<'a>(&self, line: &'a str) -> (&'a str, &'a str) {
        match self.now {
            Table::Privileges => (line, privileges::wanted(line)),
            _ => line.split_once(" = ").unwrap_or((line, "")),
        }
    }

    fn answer(&mut self, alloc: Global, words: &[&str], text: &mut String) -> Mem<()> {
        match self.now {
            Table::Grants => self.grants.answer(alloc, words, text),
            Table::Jobs => self.jobs.answer(alloc, words, text),
            Table::Server => self.server.answer(alloc, words, text),
            _ => privileges::answer(alloc, words, text),
        }
    }
}
