//! Workers' links to the source.

ghost use Rattle.std.specs.Prelude.{◌≡◌, [], None};

use crate::making::CHUNK;
use crate::plan::Links;
use crate::room::Room;
use copy_workers::{Link, Rest, Resting};
use outbox::Outgoing;
use outcome::Mem;
use rpc_msg::{Fed, RECORD_LIMIT, RecordFeed, mark};
use std::sync::Wait;
use std::sync::ledger::Ledger;
use streams::{Put, Sink, Source, Stream, Take};
use two_ends::Wrong;

/// A worker's link to the source: a call is answered as soon as all of it was put.
#[derive(Drop)]
pub(crate) struct RoomLink<'a, R: Wait, L: Ledger, T: Ledger, G: Ledger> {
    room: &'a Room<'a, R, L, T, G>,
    resting: Resting<'a, R>,
    worker: u32,
    feed: RecordFeed,
    answers: Vec<u8>,
    at: usize,
    answered: u32,
    reading: bool,
    held: bool,
    broken: bool,
    faults: u64,
}

impl<'a, R: Wait, L: Ledger, T: Ledger, G: Ledger> RoomLink<'a, R, L, T, G> {
    pub(crate) fn new(
        room: &'a Room<'a, R, L, T, G>,
        resting: Resting<'a, R>,
        worker: u32,
    ) -> Mem<RoomLink<'a, R, L, T, G>> {
        Ok(RoomLink {
            room,
            resting,
            worker,
            feed: RecordFeed::new(room.alloc)?,
            answers: Vec::new(room.alloc),
            at: 0,
            answered: 0,
            reading: false,
            held: false,
            broken: false,
            faults: 0,
        })
    }

    /// The source answers the call that was put. Without an answer the link is broken.
    fn answer(&mut self)
        ensures { self.new.faults ≡ self.old.faults }
    {
        let before = self.answers.len();
        if self.put_answer().is_err() {
            self.broken = true;
        } else if self.answers.len() > before.saturating_add(CHUNK) {
            self.reading = true;
            self.room.begin_read();
        }
    }

    fn put_answer(&mut self) -> Result<(), Wrong>
        ensures { self.new.faults ≡ self.old.faults }
    {
        let out = self.room.ask(self.worker, self.feed.record())?;
        put_marked(&mut self.answers, out.sent.as_slice())
    }

    /// Whether the next answer is given. It may have to wait.
    fn is_open(&mut self) -> bool
        ensures { self.new.faults ≡ self.old.faults }
    {
        let plan = &self.room.plan;
        let is_first = self.reading && !self.held;
        self.held = self.held || self.reading;
        let holds = match plan.links {
            Links::Free => true,
            Links::Failing(answers) => self.answered < answers,
            Links::Together => !is_first || self.room.has_come(),
            Links::Breaking => {
                !is_first || (self.room.has_come() && self.worker < u32::from(plan.workers))
            }
        };
        holds && !self.broken
    }

    /// All of an answer is given.
    fn end(&mut self)
        ensures { self.new.faults ≡ self.old.faults }
    {
        self.answers.clear();
        self.at = 0;
        self.answered = self.answered.saturating_add(1);
        if self.reading {
            self.reading = false;
            self.room.end_read();
        }
    }
}

impl<'a, R: Wait, L: Ledger, T: Ledger, G: Ledger> Stream for RoomLink<'a, R, L, T, G> {
    ghost gives = { λ l. record { left = None; whole = None; faults = l.faults; failing = [] } };
}

impl<'a, R: Wait, L: Ledger, T: Ledger, G: Ledger> Source for RoomLink<'a, R, L, T, G> {
    fn take(&mut self, buf: &mut [u8]) -> Take {
        if buf.is_empty() {
            return Take::Took(0);
        }
        if !self.is_open() {
            self.faults = self.faults.saturating_add(1);
            return Take::Failed;
        }
        let Some(left) = self.answers.get(self.at..) else {
            return Take::End;
        };
        let count = left.len().min(buf.len());
        if count == 0 {
            return Take::End;
        }
        buf[..count].copy_from_slice(&left[..count]);
        self.at = self.at.saturating_add(count);
        if self.at == self.answers.len() {
            self.end();
        }
        Take::Took(count)
    }
}

impl<'a, R: Wait, L: Ledger, T: Ledger, G: Ledger> Sink for RoomLink<'a, R, L, T, G> {
    fn put(&mut self, piece: &[u8]) -> Put {
        match self.feed.feed(piece) {
            (_, Fed::Need) => Put::Put(piece.len()),
            (count, Fed::Whole) => {
                self.answer();
                Put::Put(count)
            }
            (_, Fed::TooLarge { .. }) => {
                self.broken = true;
                Put::Put(piece.len())
            }
        }
    }
}

impl<'a, R: Wait, L: Ledger, T: Ledger, G: Ledger> Link for RoomLink<'a, R, L, T, G> {
    fn rest(&mut self, rest: Rest) -> bool {
        self.resting.rest(rest)
    }

    fn post(&mut self, _conn: u32, bytes: &[u8]) {
        if self.room.tell(bytes).is_err() {
            self.room.fault();
        }
    }
}

/// Puts each of these records behind the bytes, with its mark (RFC 5531 section 11).
fn put_marked(bytes: &mut Vec<u8>, sent: &[Outgoing]) -> Result<(), Wrong> {
    for outgoing in sent {
        let record_ = outgoing.bytes.as_slice();
        if record_.len() > RECORD_LIMIT as usize {
            return Err(Wrong::Lacks("a short record"));
        }
        bytes.extend_from_slice(&mark(record_.len() as u32))?;
        bytes.extend_from_slice(record_)?;
    }
    Ok(())
}
