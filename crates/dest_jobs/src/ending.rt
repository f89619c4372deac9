//! The end of jobs that a client brings about, and what is told of a step.

ghost use Rattle.std.specs.Prelude.{◌≡◌, not, filter, IsSome};
ghost use Rattle.job_book.specs.Book.{client_of, named};
ghost use Rattle.dest_jobs.specs.Ending.{end_all, end_from, end_if, ended, noted, takes, test_of, with_note};

use crate::copies::Copies;
use nfs_base::{JobName, MOST_JOBS, Stop};
use outbox::{MOST_NOTES, Note, NoteList};
use sess_slots::Sessions;

/// Whose jobs end.
#[derive(Clone, Copy)]
pub enum Whose<'a> {
    /// Those of a client.
    Client(u64),

    /// Those of the clients whose lease has ended in a second.
    Lapsed { sessions: &'a Sessions, second: u64 },
}

impl<'a> Whose<'a> {
    fn takes(&self, client: u64) -> bool
        ensures { result ≡ test_of self.now client }
    {
        match self {
            Whose::Client(gone) => client == *gone,
            Whose::Lapsed { sessions, second } => sessions.lapsed(client, *second),
        }
    }
}

impl Copies {
    /// Adds what is to be told of this step. It wants no memory.
    pub fn note(&mut self, note: Note)
        ensures { self.new ≡ with_note note self.old }
    {
        add_note(&mut self.told, note);
    }

    /// Ends a job at once. That is told of one that ran.
    pub(crate) fn end(&mut self, cause: Stop, name: JobName)
        requires { IsSome (named self.old.book.table name) }
        ensures { self.new ≡ ended cause name self.old }
    {
        if self.book.is_running(name) {
            self.note(Note::Stopped { job: name, cause });
        }
        self.book.retire(name);
    }

    fn end_one(&mut self, whose: &Whose, cause: Stop, name: JobName)
        ensures { self.new ≡ end_if (takes (test_of whose.now) (client_of self.old.book.table name)) cause name self.old }
    {
        match self.book.client(name) {
            Some(client) => {
                if whose.takes(client) {
                    self.end(cause, name);
                }
            }
            None => {}
        }
    }

    /// Ends the jobs of some clients, of so many jobs from a number on.
    #[tactic(auto, unfolding(crate::specs::Ending::end_from))]
    fn end_from(&mut self, whose: &Whose, cause: Stop, left: usize, after: u32)
        ensures { self.new ≡ end_from (test_of whose.now) cause left after self.old }
    {
        if left == 0 {
            return;
        }
        if let Some(name) = self.book.next(after) {
            self.end_one(whose, cause, name);
            self.end_from(whose, cause, left - 1, name.number);
        }
    }

    /// Ends the jobs of some clients, by number. The others stay as they are. It wants no memory.
    pub fn end_all(&mut self, whose: &Whose, cause: Stop)
        ensures is { self.new ≡ end_all (test_of whose.now) cause self.old }
        ensures others { self.new.book.table.jobs ≡ filter (λ job. not (test_of whose.now job.plan.client)) self.old.book.table.jobs }
    {
        let _made = self.book.made();
        self.end_from(whose, cause, MOST_JOBS, 0);
    }
}

fn add_note(told: &mut NoteList, note: Note)
    ensures { told.new ≡ noted note told.old }
{
    if told.as_slice().len() < MOST_NOTES {
        told.push(note);
    }
}
