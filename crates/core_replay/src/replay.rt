//! Cases from standard input, line by line.

use crate::cases::Cases;
use crate::cores::Cores;
use crate::due::Due;
use crate::lines::{Kind, is_passed_over, kind_of};
use crate::player::Player;
use outcome::Mem;
use row_text::{word, words};
use std::alloc::Global;
use std::io;

/// Replays the cases of standard input, and prints what is to be told of them.
pub fn replay_cases<S: Player, C: Player>(rt: &HostRuntime, cores: Cores<S, C>) -> io::Result<()> {
    let mut replay = Replay {
        cores,
        cases: Cases::new(rt.alloc()),
        due: Due::new(rt.alloc()),
        told: String::new(rt.alloc()),
    };
    replay.take_lines(rt)?;
    replay.print_counts(rt)
}

/// What is replayed, and how it goes.
#[derive(Drop)]
struct Replay<S, C> {
    cores: Cores<S, C>,
    cases: Cases,

    /// The lines that the last event gave.
    due: Due,

    /// What is to be told of a line.
    told: String,
}

impl<S: Player, C: Player> Replay<S, C> {
    fn print_counts(&self, rt: &HostRuntime) -> io::Result<()> {
        println!(rt; "{} cases, {} differ", self.cases.begun, self.cases.differ)
    }

    fn take_lines(&mut self, rt: &HostRuntime) -> io::Result<()> {
        for line in rt.lines(rt.alloc()) {
            self.take_line(rt, line)?;
        }
        Ok(())
    }

    /// Takes a line, and prints what is to be told of it.
    fn take_line(&mut self, rt: &HostRuntime, line: io::Result<String>) -> io::Result<()> {
        let line = line?;
        self.told.clear();
        let taken = self.take(rt.alloc(), line.as_str());
        self.print_told(rt, taken.is_ok())
    }

    fn print_told(&self, rt: &HostRuntime, is_taken: bool) -> io::Result<()> {
        if is_taken && self.told.is_empty() {
            return Ok(());
        }
        let told = if is_taken {
            self.told.as_str()
        } else {
            "out of memory"
        };
        println!(rt; "{told}")
    }

    /// Takes a line, and adds what is to be told of it.
    fn take(&mut self, alloc: Global, line: &str) -> Mem<()> {
        self.cases.count_line();
        if is_passed_over(line) {
            return Ok(());
        }
        let words = words(alloc, line)?;
        self.take_words(alloc, line, words.as_slice())
    }

    fn take_words(&mut self, alloc: Global, line: &str, words: &[&str]) -> Mem<()> {
        match kind_of(word(words, 0)) {
            Kind::Core => {
                self.cores.choose(word(words, 1));
                Ok(())
            }
            Kind::Case => self.begin(alloc, words),
            _ if self.cases.is_left => Ok(()),
            Kind::Event => self.event(alloc, line, words),
            Kind::Outcome => self.meets(line),
            Kind::Held => self.held(line, words),
            Kind::End => self.ends_outcome(line),
        }
    }

    fn begin(&mut self, alloc: Global, words: &[&str]) -> Mem<()> {
        let _none_due = self.due.anew();
        self.cases.begin(alloc, word(words, 1))?;
        self.cores.begin(alloc, words)
    }

    /// An event. What is due behind it is its outcome, where the core makes it.
    fn event(&mut self, alloc: Global, line: &str, words: &[&str]) -> Mem<()> {
        self.ends_outcome(line)?;
        if self.cores.event(alloc, words, self.due.anew())? {
            return Ok(());
        }
        self.cases.leave(&mut self.told)
    }

    /// A line that says what a core holds, as the core is to say it.
    fn held(&mut self, line: &str, words: &[&str]) -> Mem<()> {
        self.ends_outcome(line)?;
        self.cores.held(words, self.due.anew())?;
        self.meets(line)
    }

    /// A line behind which no line of the outcome may be due.
    fn ends_outcome(&mut self, line: &str) -> Mem<()> {
        match self.due.next() {
            Some(left) => self.cases.tell(line, left, &mut self.told),
            None => Ok(()),
        }
    }

    /// A line that is to be the next one that is due.
    fn meets(&mut self, line: &str) -> Mem<()> {
        let given = self.due.next().unwrap_or("nothing");
        self.cases.meet(line, given, &mut self.told)
    }
}
