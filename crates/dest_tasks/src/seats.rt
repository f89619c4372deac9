//! The seats of jobs.

ghost use Rattle.std.specs.Prelude.{◌≡◌, ◌<◌, IfSome, None, replicate};
ghost use Rattle.dest_tasks.specs.Seats.{denied, free_seat, is_denied, is_free, seat_of, seated, sits, was_denied};
ghost use Rattle.dest_tasks.specs.declared.seats.TheConstants.{SEATS};

use job_book::Book;
use nfs_base::JobName;
use std::marker::Model;

/// How many jobs have a seat at a time.
pub const SEATS: u32 = 16;

/// The seat of a job.
#[derive(Clone, Copy, PartialEq, Eq)]
pub struct Seat {
    /// The job's number.
    pub job: u32,

    /// Whether the source denied a CREATE for it once, by a context that it doesn't know.
    pub denied: bool,
}

/// The seats of a destination's jobs.
#[derive(Drop)]
pub struct Seats {
    seats: [Option<Seat>; SEATS as usize],
}

impl Model for Seats {
    ghost use Rattle.std.specs.Prelude.{◌≡◌, List, Option, length};
    ghost use Rattle.dest_tasks.specs.declared.seats.Seat.{Seat};
    ghost use Rattle.dest_tasks.specs.declared.seats.TheConstants.{SEATS};

    ghost Value = { List (Option Seat) };

    ghost view = { λ s. s.seats };

    ghost invariant = { λ s. length s.seats ≡ SEATS };
}

impl Seats {
    /// All are free.
    pub fn new() -> Seats
        ensures { result ≡ replicate SEATS None }
    {
        Seats {
            seats: [None; SEATS as usize],
        }
    }

    /// The seat of the job with this number.
    pub fn of(&self, job: u32) -> Option<usize>
        ensures seat { result ≡ seat_of job self.now }
        ensures there { IfSome result (λ seat. seat < SEATS) }
    {
        self.seats.iter().position(|seat| sits(job, seat))
    }

    /// A job that was accepted gets the lowest seat at which no job of the book sits, and it is told which. Where there is
    /// none, nothing changes.
    pub fn seat(&mut self, job: JobName, book: &Book) -> Option<usize>
        ensures seat { result ≡ free_seat job.boot book.now.table self.old }
        ensures there { IfSome result (λ seat. seat < SEATS) }
        ensures after { self.new ≡ seated job book.now.table self.old }
    {
        let place = self.free_place(job.boot, book)?;
        self.seats[place] = Some(Seat {
            job: job.number,
            denied: false,
        });
        Some(place)
    }

    fn free_place(&self, boot: u32, book: &Book) -> Option<usize>
        ensures place { result ≡ free_seat boot book.now.table self.now }
        ensures there { IfSome result (λ place. place < SEATS) }
    {
        self.seats.iter().position(|seat| is_free(boot, book, seat))
    }

    /// Whether a CREATE for a job was denied before.
    pub fn was_denied(&self, job: u32) -> bool
        ensures { result ≡ was_denied job self.now }
    {
        self.seats.iter().any(|seat| is_denied(job, seat))
    }

    /// A CREATE for a job was denied.
    pub fn deny(&mut self, job: u32)
        ensures { self.new ≡ denied job self.old }
    {
        if let Some(place) = self.of(job) {
            self.seats[place] = Some(Seat { job, denied: true });
        }
    }
}

fn sits(job: u32, seat: &Option<Seat>) -> bool
    ensures { result ≡ sits job seat.now }
{
    match seat {
        None => false,
        Some(seat) => seat.job == job,
    }
}

fn is_denied(job: u32, seat: &Option<Seat>) -> bool
    ensures { result ≡ is_denied job seat.now }
{
    match seat {
        None => false,
        Some(seat) => seat.job == job && seat.denied,
    }
}

/// Whether no job of the book sits there.
fn is_free(boot: u32, book: &Book, seat: &Option<Seat>) -> bool
    ensures { result ≡ is_free boot book.now.table seat.now }
{
    match seat {
        None => true,
        Some(seat) => book
            .client(JobName {
                boot,
                number: seat.job,
            })
            .is_none(),
    }
}
