//! The list.

ghost use Rattle.std.specs.Prelude.{◌≡◌, ◌<◌, ◌^◌, IfOk};
ghost use Rattle.wire_log.specs.Keeping.{all_kept, sent_bytes};
ghost use Rattle.wire_spelling.specs.Replies.{is_reply};

use crate::kept::{Kept, MOST_RECORDS, Sending, deliver, kept_at, record_sent};
use outbox::Outgoing;
use outcome::{Mem, NoMemory};
use rpc_msg::read_reply;
use std::alloc::Global;
use std::marker::Model;
use wire_machine::Port;
use wire_xdr::Items;

/// All records of a run, counted from 1, at most [`MOST_RECORDS`]. Each is stored once.
#[derive(Drop)]
pub struct Log {
    pub(crate) records: Vec<Kept>,

    /// How many bytes they have.
    bytes: u64,
}

impl Model for Log {
    ghost use Rattle.std.specs.Prelude.{List};
    ghost use Rattle.wire_log.specs.Keeping.{posted_all, AreKept};
    ghost use Rattle.wire_machine.specs.World.{Posted};

    ghost Value = { List Posted };

    ghost view = { λ l. posted_all l.records.items };

    ghost invariant = { λ l. AreKept l.records.items l.bytes };
}

impl Log {
    ghost use Rattle.std.specs.Prelude.{◌≡◌, ◌++◌, ◌+◌, ◌^◌, ◌<◌, ◌≤◌, [], not, false, length, is_some, None, IsSome, OnOk, OnErr, MatchOption, Some, option_and_then};
    ghost use Rattle.std.specs.Option.{option_map_or};
    ghost use Rattle.wire_log.specs.Keeping.{bytes_at, sent_bytes};
    ghost use Rattle.wire_log.specs.declared.kept.TheConstants.{MOST_RECORDS};
    ghost use Rattle.wire_machine.specs.World.{all_posted, bytes_of, marked, posted_at};

    /// No record.
    pub fn new(alloc: Global) -> Log
        ensures { result ≡ [] }
    {
        Log {
            records: Vec::new(alloc),
            bytes: 0,
        }
    }

    /// How many records were sent.
    pub fn count(&self) -> u64
        ensures exact { result ≡ length self.now }
        ensures most { result ≤ MOST_RECORDS }
    {
        self.records.len() as u64
    }

    /// How many bytes they have.
    pub fn bytes(&self) -> u64
        ensures { result ≡ bytes_of self.now }
    {
        self.bytes
    }

    /// A record by its number.
    pub fn record(&self, number: u64) -> Option<&[u8]>
        ensures { MatchOption result (posted_at number self.now ≡ None) (λ bytes. bytes_at self.now number ≡ Some bytes.now) }
    {
        match kept_at(self.records.as_slice(), number) {
            None => None,
            Some(kept) => Some(kept.bytes.as_slice()),
        }
    }

    /// Whether a record has the number.
    pub fn has(&self, number: u64) -> bool
        ensures { result ≡ is_some (posted_at number self.now) }
    {
        kept_at(self.records.as_slice(), number).is_some()
    }

    /// The bytes of a record that is there.
    pub fn stored(&self, number: u64) -> &[u8]
        requires { IsSome (posted_at number self.now) }
        ensures { bytes_at self.now number ≡ Some result.now }
    {
        self.records[(number - 1) as usize].bytes.as_slice()
    }

    /// Where a record goes in, by its number. None where no record has the number, or it goes in nowhere.
    pub fn port(&self, number: u64) -> Option<Port>
        ensures { result ≡ option_and_then (λ r. r.port) (posted_at number self.now) }
    {
        match kept_at(self.records.as_slice(), number) {
            None => None,
            Some(kept) => kept.port,
        }
    }

    /// Whether a record is there that wasn't delivered.
    pub fn is_waiting(&self, number: u64) -> bool
        ensures { result ≡ option_map_or (λ r. not r.delivered) (posted_at number self.now) false }
    {
        match kept_at(self.records.as_slice(), number) {
            None => false,
            Some(kept) => !kept.delivered,
        }
    }

    /// A record is delivered, by its number.
    pub fn mark(&mut self, number: u64)
        ensures { self.new ≡ marked number self.old }
    {
        deliver(self.records.as_mut_slice(), number);
    }

    /// Records are sent in a step. Without memory the list is as before, and so it is where it would hold more than
    /// [`MOST_RECORDS`], for which memory is never had.
    pub fn post(&mut self, alloc: Global, at: Sending, sent: Items<Outgoing>) -> Mem<()>
        requires took { at.took ≤ length self.old }
        requires room { bytes_of self.old + sent_bytes sent < 2 ^ 63 }
        ensures ok { OnOk result (self.new ≡ self.old ++ all_posted at.from at.step at.opening (bytes_at self.old at.took) sent) }
        ensures err { OnErr result (self.new ≡ self.old) }
    {
        if sent.len() as u64 > MOST_RECORDS - self.records.len() as u64 {
            return Err(NoMemory);
        }
        let bytes = bytes_in(sent.as_slice());
        let mut made = made_of(alloc, at, sent.into_vec())?;
        self.records.append(&mut made)?;
        self.bytes += bytes;
        Ok(())
    }
}

/// How many bytes records have that are sent.
fn bytes_in(sent: &[Outgoing]) -> u64
    requires { sent_bytes sent.now < 2 ^ 63 }
    ensures { result ≡ sent_bytes sent.now }
{
    sent.iter()
        .map(|outgoing| outgoing.bytes.len() as u64)
        .sum()
}

/// Records that were just sent, as they are stored.
fn made_of(alloc: Global, at: Sending, sent: Vec<Outgoing>) -> Mem<Vec<Kept>>
    ensures { IfOk result (λ made. made.items ≡ all_kept at sent.items) }
{
    let mut made = Vec::with_capacity(alloc, sent.len())?;
    for outgoing in sent {
        let is_reply = reads_as_reply(alloc, outgoing.bytes.as_slice())?;
        made.push(record_sent(at, outgoing, is_reply))?;
    }
    Ok(made)
}

/// Whether a record's head is that of a reply.
fn reads_as_reply(alloc: Global, bytes: &[u8]) -> Mem<bool>
    ensures { IfOk result (λ reply. reply ≡ is_reply bytes.now) }
{
    Ok(read_reply(alloc, bytes)?.is_ok())
}
