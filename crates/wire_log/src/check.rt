//! The check of seals. A record that is delivered is at hand, and with it the one that its sender took; so nothing is looked
//! for but where these two don't show that all is right.

ghost use Rattle.std.specs.Prelude.{◌≡◌, slice_index};
ghost use Rattle.std.specs.List.{list_any};
ghost use Rattle.wire_log.specs.Keeping as keeping;
ghost use Rattle.wire_log.specs.Looking as looking;
ghost use Rattle.wire_machine.specs.Check as seals;
ghost use Rattle.wire_spelling.specs.Calls.{xid_in};

use crate::kept::{Kept, kept_at};
use crate::log::Log;
use nfs_base::{End, Seal};
use wire_machine::Mistake;

impl Log {
    ghost use Rattle.std.specs.Prelude.{◌≡◌};
    ghost use Rattle.wire_log.specs.Keeping.{bytes_at, reading};
    ghost use Rattle.wire_machine.specs.Check.{mistake_in};

    /// What an end, in its opening of a number, is mistaken in, where it accepts a record under a seal, by the record's
    /// number. The record's place in the list and that of what its sender took are the index: all records are looked through
    /// only where those two fail, that is where the run is about to end with a mistake, or equal bytes were sent twice.
    pub fn mistake(
        &self,
        end: End,
        opening: u32,
        accepted: Option<Seal>,
        took: u64,
    ) -> Option<Mistake>
        ensures { result ≡ mistake_in reading self.now end opening accepted (bytes_at self.now took) }
    {
        let records = self.records.as_slice();
        let accepted = accepted?;
        let taken = kept_at(records, took)?;
        if is_right(records, end, opening, accepted, taken) {
            return None;
        }
        Some(Mistake {
            accepted,
            sealed: first_seal(records, taken.bytes.as_slice()),
        })
    }
}

/// An end's calls of an opening that have this xid.
#[derive(Clone, Copy)]
struct Awaited {
    end: End,
    opening: u32,
    xid: u32,
}

fn is_right(records: &[Kept], end: End, opening: u32, seal: Seal, taken: &Kept) -> bool
    ensures { result ≡ looking.right_so records.now end opening seal taken.now }
{
    if taken.is_reply {
        is_answered(records, end, opening, seal, taken)
    } else {
        is_sent(records, end, seal, taken)
    }
}

/// Another end sealed these bytes so.
fn is_sent(records: &[Kept], end: End, seal: Seal, taken: &Kept) -> bool
    ensures { result ≡ looking.near_or_any (looking.sealed_so end seal taken.now.bytes) taken.now records.now }
{
    let bytes = taken.bytes.as_slice();
    is_sealed(end, seal, bytes, taken) || has_sealed(records, end, seal, bytes)
}

fn has_sealed(records: &[Kept], end: End, seal: Seal, bytes: &[u8]) -> bool
    ensures { result ≡ list_any (looking.sealed_so end seal bytes.now) records.now }
{
    records.iter().any(|kept| is_sealed(end, seal, bytes, kept))
}

/// It did so in a step that took a call which the end awaits the answer to.
fn is_answered(records: &[Kept], end: End, opening: u32, seal: Seal, taken: &Kept) -> bool
    ensures { result ≡ looking.near_or_any (looking.answer_so records.now (looking.awaited_by end opening taken.now.bytes) seal taken.now.bytes) taken.now records.now }
{
    let bytes = taken.bytes.as_slice();
    let awaited = Awaited {
        end,
        opening,
        xid: xid_of(bytes),
    };
    is_answer(records, awaited, seal, bytes, taken) || has_answer(records, awaited, seal, bytes)
}

fn has_answer(records: &[Kept], awaited: Awaited, seal: Seal, bytes: &[u8]) -> bool
    ensures { result ≡ list_any (looking.answer_so records.now awaited seal bytes.now) records.now }
{
    records
        .iter()
        .any(|kept| is_answer(records, awaited, seal, bytes, kept))
}

fn is_answer(records: &[Kept], awaited: Awaited, seal: Seal, bytes: &[u8], answer: &Kept) -> bool
    ensures { result ≡ looking.answer_so records.now awaited seal bytes.now answer.now }
{
    is_sealed(awaited.end, seal, bytes, answer) && took_call(records, awaited, answer)
}

fn took_call(records: &[Kept], awaited: Awaited, answer: &Kept) -> bool
    ensures { result ≡ looking.took_call records.now awaited answer.now.step (keeping.kept_at answer.now.took records.now) }
{
    match kept_at(records, answer.took) {
        None => false,
        Some(call) => {
            is_call(awaited, answer.step, call) || has_call(records, awaited, answer.step, call)
        }
    }
}

/// A record with the bytes of this one is one of these calls.
fn has_call(records: &[Kept], awaited: Awaited, before: u64, call: &Kept) -> bool
    ensures { result ≡ list_any (looking.call_with awaited before call.now.bytes) records.now }
{
    let bytes = call.bytes.as_slice();
    records.iter().any(|kept| bytes == kept.bytes.as_slice() && is_call(awaited, before, kept))
}

/// The seal of the first record with these bytes.
fn first_seal(records: &[Kept], bytes: &[u8]) -> Option<Seal>
    ensures { result ≡ looking.first_seal records.now bytes.now }
{
    match records.iter().find(|kept| kept.bytes.as_slice() == bytes) {
        None => None,
        Some(kept) => kept.seal,
    }
}

/// Another end than this one sealed these bytes so.
fn is_sealed(end: End, seal: Seal, bytes: &[u8], kept: &Kept) -> bool
    ensures { result ≡ looking.sealed_so end seal bytes.now kept.now }
{
    !is_same_end(kept.from, end) && has_seal(seal, kept.seal) && kept.bytes.as_slice() == bytes
}

/// It is one of these calls, and was sent before a step.
fn is_call(awaited: Awaited, before: u64, kept: &Kept) -> bool
    ensures { result ≡ looking.call_before awaited before kept.now }
{
    is_same_end(kept.from, awaited.end)
        && kept.opening == awaited.opening
        && kept.step < before
        && !kept.is_reply
        && xid_of(kept.bytes.as_slice()) == awaited.xid
}

fn is_same_end(a: End, b: End) -> bool
    ensures { result ≡ seals.same_end a b }
{
    a == b
}

fn has_seal(seal: Seal, sealed: Option<Seal>) -> bool
    ensures { result ≡ seals.has_seal seal sealed }
{
    match sealed {
        None => false,
        Some(other) => {
            is_same_end(seal.owner, other.owner)
                && seal.boot == other.boot
                && seal.number == other.number
                && seal.seq == other.seq
        }
    }
}

/// The first word of a record; bytes that lack count as 0.
fn xid_of(bytes: &[u8]) -> u32
    ensures { result ≡ xid_in bytes.now }
{
    u32::from_be_bytes([
        byte_at(bytes, 0),
        byte_at(bytes, 1),
        byte_at(bytes, 2),
        byte_at(bytes, 3),
    ])
}

fn byte_at(bytes: &[u8], place: usize) -> u8
    ensures { result ≡ slice_index bytes.now place }
{
    match bytes.get(place) {
        None => 0,
        Some(byte) => *byte,
    }
}
