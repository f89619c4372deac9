//! The end of a small step: what was taken is checked, and what was told and sent is put down.

ghost use Rattle.std.specs.Prelude.{◌≡◌, ◌↔◌, ◌+◌, ◌-◌, ◌^◌, ◌<◌, ◌≤◌, [], ◌∷◌, ◌++◌, ◌||◌, length, map, min, IfOk, IsTrue, OnOk};
ghost use Rattle.std.specs.String.{string_bytes};
ghost use Rattle.wire_lines.specs.LineText.{lines_text};
ghost use Rattle.wire_log.specs.Keeping.{reading, sent_bytes};
ghost use Rattle.wire_machine.specs.Lines.{notes_of, records_of, sent_lines};
ghost use Rattle.wire_machine.specs.Runs.{fault_by, most_bytes};
ghost use Rattle.wire_machine.specs.Steps.{any_failed};
ghost use Rattle.wire_machine.specs.World.{bytes_of};
ghost use Rattle.wire_run.specs.Stage.{all_posted_by, all_sent_bytes, choice_by, faults_named, has_failed_by, mistake_by, posted_by, speaker_of, ticked_parts, AreAllPutDown, IsPutDown, SettleKeeps, Settles, SettlesAll};

use crate::lines::{put_lines, put_notes, put_sent};
use crate::stage::{Acted, Fault, Stage, Ticked};
use disk_model::Disk;
use gss_mech::Mechanism;
use nfs_base::End;
use outbox::{CallAnswer, Outbox, Outgoing};
use outcome::Mem;
use std::alloc::Global;
use wire_lines::Speaker;
use wire_log::Sending;
use wire_machine::Choice;

/// How many bytes all records of a run may have.
const MOST_BYTES: u64 = 268_435_456;

impl<D: Disk, M> Stage<D, M> {
    /// A small step of one end ends: what it took is checked, and what it told and sent is put down.
    pub(crate) fn settle(
        &mut self,
        alloc: Global,
        acted: Acted,
        text: &mut String,
    ) -> Mem<Option<Fault>>
        requires took { acted.took ≤ length self.old.log }
        requires bytes { bytes_of self.old.log ≤ most_bytes }
        ensures settled { IfOk result (λ fault. Settles reading acted self.old self.new (string_bytes text.old) (string_bytes text.new) (faults_named fault)) }
        ensures keeps { SettleKeeps self.old self.new }
    {
        match self.fault(&acted) {
            Some(fault) => Ok(Some(fault)),
            None => {
                self.put_down(alloc, acted, text)?;
                Ok(None)
            }
        }
    }

    /// Why the run ends with this step of an end, if it does.
    fn fault(&self, acted: &Acted) -> Option<Fault>
        requires { bytes_of self.now.log ≤ most_bytes }
        ensures { faults_named result ≡ fault_by (mistake_by reading acted.now self.now) (bytes_of self.now.log + sent_bytes acted.now.out.sent) }
    {
        let Acted {
            end,
            opening,
            took,
            out,
            ..
        } = acted;
        match self.log.mistake(*end, *opening, out.accepted, *took) {
            Some(mistake) => Some(Fault::Mistaken(mistake)),
            None => {
                if self.is_too_large(size_of(out.sent.as_slice())) {
                    Some(Fault::TooLarge)
                } else {
                    None
                }
            }
        }
    }

    /// Whether the records, with so many bytes more, have too many.
    fn is_too_large(&self, more: u64) -> bool
        ensures { IsTrue result ↔ (most_bytes < bytes_of self.now.log + more) }
    {
        self.log.bytes().saturating_add(more) > MOST_BYTES
    }

    /// The lines of an end's step are put, and it is kept.
    fn put_down(&mut self, alloc: Global, acted: Acted, text: &mut String) -> Mem<()>
        requires took { acted.took ≤ length self.old.log }
        requires bytes { bytes_of self.old.log + sent_bytes acted.out.sent ≤ most_bytes }
        ensures ok { OnOk result (IsPutDown acted self.old self.new (string_bytes text.old) (string_bytes text.new)) }
        ensures keeps { SettleKeeps self.old self.new }
    {
        put_lines(text, acted.speaker, acted.end, self.log.count(), &acted.out)?;
        self.keep(alloc, acted)
    }

    /// The records of an end go to the list, and the small step is counted.
    fn keep(&mut self, alloc: Global, acted: Acted) -> Mem<()>
        requires took { acted.took ≤ length self.old.log }
        requires bytes { bytes_of self.old.log + sent_bytes acted.out.sent ≤ most_bytes }
        ensures log { OnOk result (self.new.log ≡ self.old.log ++ posted_by acted self.old) }
        ensures choices { OnOk result (self.new.choices.items ≡ self.old.choices.items ++ choice_by (has_failed_by acted.end acted.out.used) ∷ []) }
        ensures keeps { SettleKeeps self.old self.new }
    {
        let choice = choice_by(has_failed_by(acted.end, &acted.out));
        self.send(alloc, acted)?;
        self.count(choice)
    }

    /// The records of an end go to the list.
    fn send(&mut self, alloc: Global, acted: Acted) -> Mem<()>
        requires took { acted.took ≤ length self.old.log }
        requires bytes { bytes_of self.old.log + sent_bytes acted.out.sent ≤ most_bytes }
        ensures ok { OnOk result (self.new.log ≡ self.old.log ++ posted_by acted self.old) }
        ensures choices { self.new.choices ≡ self.old.choices }
        ensures keeps { SettleKeeps self.old self.new }
    {
        let at = Sending {
            from: acted.end,
            opening: acted.opening,
            step: self.choices.len() as u64,
            took: acted.took,
        };
        let Acted { out, .. } = acted;
        let Outbox { sent, .. } = out;
        self.log.post(alloc, at, sent)
    }

    /// A small step is done.
    pub(crate) fn count(&mut self, choice: Choice) -> Mem<()>
        requires { bytes_of self.old.log ≤ most_bytes }
        ensures log { self.new.log ≡ self.old.log }
        ensures choices { OnOk result (self.new.choices.items ≡ self.old.choices.items ++ choice ∷ []) }
        ensures keeps { SettleKeeps self.old self.new }
    {
        self.choices.push(choice)?;
        Ok(())
    }

    /// The small step ends in which the clock moves on. No end took a record in it.
    pub(crate) fn settle_all(
        &mut self,
        alloc: Global,
        ticked: Ticked,
        text: &mut String,
    ) -> Mem<Option<Fault>>
        requires { bytes_of self.old.log ≤ most_bytes }
        ensures settled { IfOk result (λ fault. SettlesAll ticked self.old self.new (string_bytes text.old) (string_bytes text.new) (faults_named fault)) }
        ensures keeps { SettleKeeps self.old self.new }
    {
        if self.is_too_large(all_size(&ticked)) {
            return Ok(Some(Fault::TooLarge));
        }
        self.put_all_down(alloc, ticked, text)?;
        Ok(None)
    }

    /// The lines of all ends are put, and they are kept.
    fn put_all_down(&mut self, alloc: Global, ticked: Ticked, text: &mut String) -> Mem<()>
        requires { bytes_of self.old.log + all_sent_bytes ticked ≤ most_bytes }
        ensures ok { OnOk result (AreAllPutDown ticked self.old self.new (string_bytes text.old) (string_bytes text.new)) }
        ensures keeps { SettleKeeps self.old self.new }
    {
        put_all_notes(text, &ticked)?;
        self.keep_all(alloc, ticked, text)
    }

    /// The records of all ends are told and go to the list, and the small step is counted.
    fn keep_all(&mut self, alloc: Global, ticked: Ticked, text: &mut String) -> Mem<()>
        requires { bytes_of self.old.log + all_sent_bytes ticked ≤ most_bytes }
        ensures log { OnOk result (self.new.log ≡ self.old.log ++ all_posted_by ticked self.old) }
        ensures lines { OnOk result (string_bytes text.new ≡ string_bytes text.old ++ lines_text (records_of (length self.old.log) (ticked_parts ticked))) }
        ensures choices { OnOk result (self.new.choices.items ≡ self.old.choices.items ++ choice_by (any_failed ticked.source.used || any_failed ticked.dest.used) ∷ []) }
        ensures keeps { SettleKeeps self.old self.new }
    {
        let choice = choice_by(has_failed(&ticked.source) || has_failed(&ticked.dest));
        self.tell_all(alloc, ticked, text)?;
        self.count(choice)
    }

    /// The records of all ends are told and go to the list, the source's first.
    fn tell_all(&mut self, alloc: Global, ticked: Ticked, text: &mut String) -> Mem<()>
        requires { bytes_of self.old.log + all_sent_bytes ticked ≤ most_bytes }
        ensures log { OnOk result (self.new.log ≡ self.old.log ++ all_posted_by ticked self.old) }
        ensures lines { OnOk result (string_bytes text.new ≡ string_bytes text.old ++ lines_text (records_of (length self.old.log) (ticked_parts ticked))) }
        ensures choices { self.new.choices ≡ self.old.choices }
        ensures keeps { SettleKeeps self.old self.new }
    {
        let Ticked {
            source,
            source_opening,
            dest,
            dest_opening,
            client,
        } = ticked;
        self.tell(alloc, resting(End::Source, source_opening, source), text)?;
        self.tell(alloc, resting(End::Dest, dest_opening, dest), text)?;
        self.tell(alloc, resting(End::Client, 0, client), text)
    }

    /// The records of an end are told, and go to the list.
    fn tell(&mut self, alloc: Global, acted: Acted, text: &mut String) -> Mem<()>
        requires took { acted.took ≤ length self.old.log }
        requires bytes { bytes_of self.old.log + sent_bytes acted.out.sent ≤ most_bytes }
        ensures log { OnOk result (self.new.log ≡ self.old.log ++ posted_by acted self.old) }
        ensures lines { OnOk result (string_bytes text.new ≡ string_bytes text.old ++ lines_text (sent_lines acted.end (length self.old.log + 1) acted.out.sent)) }
        ensures choices { self.new.choices ≡ self.old.choices }
        ensures keeps { SettleKeeps self.old self.new }
    {
        put_sent(text, acted.end, self.log.count(), acted.out.sent.as_slice())?;
        self.send(alloc, acted)
    }
}

/// What an end did that took no record.
fn resting(end: End, opening: u32, out: Outbox) -> Acted
    ensures { result ≡ record { end = end; opening = opening; speaker = speaker_of end; took = 0; out = out } }
{
    Acted {
        end,
        opening,
        speaker: speaker_of(end),
        took: 0,
        out,
    }
}

/// Who tells the notes of an end that took no record.
fn speaker_of(end: End) -> Speaker
    ensures { result ≡ speaker_of end }
{
    match end {
        End::Source => Speaker::Source,
        End::Dest => Speaker::Dest,
        End::Client => Speaker::Client,
    }
}

/// The notes of all ends.
fn put_all_notes(text: &mut String, ticked: &Ticked) -> Mem<()>
    ensures { OnOk result (string_bytes text.new ≡ string_bytes text.old ++ lines_text (notes_of (ticked_parts ticked.now))) }
{
    put_notes(text, Speaker::Source, ticked.source.notes.as_slice())?;
    put_notes(text, Speaker::Dest, ticked.dest.notes.as_slice())?;
    put_notes(text, Speaker::Client, ticked.client.notes.as_slice())
}

/// How many bytes all ends send, or all that a u64 can count.
fn all_size(ticked: &Ticked) -> u64
    ensures { result ≡ min (all_sent_bytes ticked.now) (2 ^ 64 - 1) }
{
    size_of(ticked.source.sent.as_slice())
        .saturating_add(size_of(ticked.dest.sent.as_slice()))
        .saturating_add(size_of(ticked.client.sent.as_slice()))
}

/// How many bytes records have, or all that a u64 can count.
fn size_of(records: &[Outgoing]) -> u64
    ensures { result ≡ min (sent_bytes records.now) (2 ^ 64 - 1) }
{
    let mut size = 0_u64;
    for outgoing in records {
        size = size.saturating_add(outgoing.bytes.len() as u64);
    }
    size
}

/// What the disks did in a small step.
pub(crate) fn choice_by(failed: bool) -> Choice
    ensures { result ≡ choice_by failed }
{
    if failed { Choice::Failed } else { Choice::Went }
}

/// Whether a call of an end on its volume failed. A client has none.
fn has_failed_by(end: End, out: &Outbox) -> bool
    ensures { result ≡ has_failed_by end out.now.used }
{
    match end {
        End::Client => false,
        End::Source | End::Dest => has_failed(out),
    }
}

/// Whether a call on the volume failed.
pub(crate) fn has_failed(out: &Outbox) -> bool
    ensures { result ≡ any_failed out.now.used }
{
    out.used
        .as_slice()
        .iter()
        .any(|used| used.answer == CallAnswer::DiskFailed)
}
