//! The lines of a small step: first the notes, then a line for each record that is sent.

ghost use Rattle.std.specs.Prelude.{◌≡◌, ◌+◌, ◌++◌, ◌≤◌, ◌^◌, length, map, IfOk, OnOk};
ghost use Rattle.std.specs.String.{string_bytes};
ghost use Rattle.wire_lines.specs.LineText.{lines_text};
ghost use Rattle.wire_machine.specs.Ends.{port_of};
ghost use Rattle.wire_machine.specs.Lines.{goes_to, sent_lines};

use nfs_base::End;
use outbox::{Note, Outbox, Outgoing};
use outcome::Mem;
use wire_lines::{Line, Speaker};
use wire_log::{end_at, port_of};

/// The lines of an end's notes.
pub(crate) fn put_notes(text: &mut String, by: Speaker, notes: &[Note]) -> Mem<()>
    ensures { OnOk result (string_bytes text.new ≡ string_bytes text.old ++ lines_text (map (Line.Note by) notes.now)) }
{
    for note in notes {
        Line::Note { by, note: *note }.push_to(text)?;
    }
    Ok(())
}

/// The lines of the records that an end sends, behind so many, and how many there are then.
pub(crate) fn put_sent(text: &mut String, from: End, before: u64, records: &[Outgoing]) -> Mem<u64>
    requires { before ≤ 2 ^ 62 }
    ensures text { OnOk result (string_bytes text.new ≡ string_bytes text.old ++ lines_text (sent_lines from (before + 1) records.now)) }
    ensures number { IfOk result (λ behind. behind ≡ before + length records.now) }
{
    let mut number = before;
    for outgoing in records {
        number += 1;
        sent_line(number, from, outgoing).push_to(text)?;
    }
    Ok(number)
}

fn sent_line(number: u64, from: End, outgoing: &Outgoing) -> Line
    ensures { result ≡ Line.Sent number from (goes_to from (port_of from outgoing.now.to)) outgoing.now.label }
{
    Line::Sent {
        number,
        from,
        to: goes_to(from, outgoing),
        label: outgoing.label,
    }
}

/// The end to which a record goes; one that goes nowhere is told as going to its sender.
fn goes_to(from: End, outgoing: &Outgoing) -> End
    ensures { result ≡ goes_to from (port_of from outgoing.now.to) }
{
    match port_of(from, outgoing.to) {
        None => from,
        Some(port) => end_at(port),
    }
}

/// The lines of an end's step, behind so many records.
pub(crate) fn put_lines(
    text: &mut String,
    by: Speaker,
    from: End,
    before: u64,
    out: &Outbox,
) -> Mem<()>
    requires { before ≤ 2 ^ 62 }
    ensures { OnOk result (string_bytes text.new ≡ string_bytes text.old ++ lines_text (map (Line.Note by) out.now.notes ++ sent_lines from (before + 1) out.now.sent)) }
{
    put_notes(text, by, out.notes.as_slice())?;
    put_sent(text, from, before, out.sent.as_slice())?;
    Ok(())
}
