//! What a worker does next.

ghost use Rattle.std.specs.Prelude.{◌≡◌, ◌<◌, IfSome};
ghost use Rattle.job_book.specs.Book.{named};
ghost use Rattle.dest_tasks.specs.declared.seats.TheConstants.{SEATS};
ghost use Rattle.dest_tasks.specs.Tasks.{after_task, asking_task, has_context, is_gone, job_task, landing_task, may_call, or_else, seen_in, sight, task_from, when};
ghost use Rattle.nfs_base.specs.declared.limits.TheConstants.{MOST_JOBS};

use crate::seats::{SEATS, Seats};
use crate::workers::Workers;
use job_book::{Book, Chunk};
use nfs_base::{JobName, MOST_JOBS};
use sess_slots::Sessions;

/// What a worker sees of the source for a job.
#[derive(Clone, Copy, PartialEq, Eq)]
pub struct Sight {
    /// Whether there is a session.
    pub session: bool,

    /// Whether an answer of the setup is awaited.
    pub setting_up: bool,

    /// Whether the job has its context there.
    pub context: bool,

    /// Whether the answer is awaited that makes it.
    pub confirming: bool,

    /// Whether the answer is awaited that tells the size of the job's file.
    pub sizing: bool,

    /// Whether its client's lease has ended, so that the job ends.
    pub gone: bool,
}

/// What a worker is to do, and for which job.
#[derive(Clone, Copy, PartialEq, Eq)]
pub enum Task {
    /// To go a step on with the setup of the source.
    Setup(JobName),

    /// To ask for the job's context there.
    Confirm(JobName),

    /// To ask for the size of the job's file.
    Size(JobName),

    /// To ask for the bytes of a chunk, which is claimed.
    Read(JobName, Chunk),

    /// To commit the file, of which each chunk has landed.
    Commit(JobName),
}

/// How far the source is set up.
#[derive(Clone, Copy)]
pub struct Source {
    /// Whether there is a session.
    pub session: bool,

    /// Whether an answer of the setup is awaited.
    pub setting_up: bool,

    /// By seat, whether the job there has its context.
    pub contexts: [bool; SEATS as usize],
}

/// What a worker sees.
#[derive(Clone, Copy)]
pub struct Outlook<'a> {
    pub source: &'a Source,
    pub workers: &'a Workers,
    pub seats: &'a Seats,

    /// The clients, whose leases end in this second.
    pub sessions: &'a Sessions,
    pub second: u64,
}

impl<'a> Outlook<'a> {
    fn sight(&self, name: JobName, client: Option<u64>) -> Sight
        ensures { result ≡ sight self.now.source.now self.now.workers.now self.now.seats.now (is_gone self.now.sessions.now self.now.second client) name }
    {
        Sight {
            session: self.source.session,
            setting_up: self.source.setting_up,
            context: has_context(&self.source.contexts, self.seats.of(name.number)),
            confirming: self.workers.confirms(name),
            sizing: self.workers.sizes(name),
            gone: self.is_gone(client),
        }
    }

    fn is_gone(&self, client: Option<u64>) -> bool
        ensures { result ≡ is_gone self.now.sessions.now self.now.second client }
    {
        match client {
            None => false,
            Some(client) => self.sessions.lapsed(client, self.second),
        }
    }
}

fn has_context(contexts: &[bool; SEATS as usize], seat: Option<usize>) -> bool
    requires { IfSome seat (λ seat. seat < SEATS) }
    ensures { result ≡ has_context contexts.now seat }
{
    match seat {
        None => false,
        Some(seat) => contexts[seat],
    }
}

/// The first task of all jobs, by number. The chunk that is to be read is claimed.
pub fn find_task(book: &mut Book, outlook: &Outlook) -> Option<Task>
    ensures task { result ≡ task_from (seen_in outlook.now book.old.table) MOST_JOBS 0 book.old }
    ensures claimed { book.new ≡ after_task result book.old }
{
    find_from(book, outlook, MOST_JOBS, 0)
}

#[tactic(auto, unfolding(crate::specs::Tasks::task_from))]
fn find_from(book: &mut Book, outlook: &Outlook, left: usize, after: u32) -> Option<Task>
    ensures task { result ≡ task_from (seen_in outlook.now book.old.table) left after book.old }
    ensures claimed { book.new ≡ after_task result book.old }
{
    if left == 0 {
        return None;
    }
    let Some(name) = book.next(after) else {
        return None;
    };
    match job_task(book, outlook, name) {
        Some(task) => Some(task),
        None => find_from(book, outlook, left - 1, name.number),
    }
}

fn job_task(book: &mut Book, outlook: &Outlook, name: JobName) -> Option<Task>
    ensures task { result ≡ job_task (seen_in outlook.now book.old.table) name book.old }
    ensures claimed { book.new ≡ after_task result book.old }
{
    if !book.is_running(name) {
        return None;
    }
    let sight = outlook.sight(name, book.client(name));
    if sight.gone {
        return None;
    }
    let sized = book.len(name).is_some();
    match asking_task(&sight, sized, name) {
        Some(task) => Some(task),
        None => landing_task(book, may_call(&sight) && sized, name),
    }
}

fn may_call(sight: &Sight) -> bool
    ensures { result ≡ may_call sight.now }
{
    sight.session && sight.context
}

/// The setup, the context, the size.
fn asking_task(sight: &Sight, sized: bool, name: JobName) -> Option<Task>
    ensures { result ≡ asking_task sight.now sized name }
{
    let setup = when(!sight.session && !sight.setting_up, Task::Setup(name));
    let confirm = when(
        sight.session && !sight.context && !sight.confirming,
        Task::Confirm(name),
    );
    let size = when(may_call(sight) && !sized && !sight.sizing, Task::Size(name));
    or_else(setup, or_else(confirm, size))
}

/// A chunk, the commit.
fn landing_task(book: &mut Book, may_read: bool, name: JobName) -> Option<Task>
    ensures task { result ≡ landing_task may_read name (named book.old.table name) }
    ensures claimed { book.new ≡ after_task result book.old }
{
    if may_read {
        if let Some(chunk) = book.claim(name) {
            return Some(Task::Read(name, chunk));
        }
    }
    when(book.is_whole(name), Task::Commit(name))
}

fn when(due: bool, task: Task) -> Option<Task>
    ensures { result ≡ when due task }
{
    if due { Some(task) } else { None }
}

fn or_else(task: Option<Task>, more: Option<Task>) -> Option<Task>
    ensures { result ≡ or_else task more }
{
    match task {
        Some(task) => Some(task),
        None => more,
    }
}
