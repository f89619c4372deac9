//! What a step gave, as lines of text.

use nfs_base::{End, Seal};
use nfs_compound::{cb_name_of, name_of};
use outbox::{CallAnswer, CallLabel, Label, Note, Outbox, Outgoing, To, Used, VolumeCall};
use outcome::Mem;
use std::fmt::Write;
use wire_lines::{Line, Speaker};

/// Adds the lines of what a step gave, and tells whether there was such a step.
pub fn tell_step(text: &mut String, by: Speaker, given: Option<Outbox>) -> Mem<bool> {
    match &given {
        Some(out) => {
            tell_outbox(text, by, out)?;
            Ok(true)
        }
        None => Ok(false),
    }
}

/// Adds the lines of an outbox, in their order: what is noted, which seal was accepted, what was done to the volume, whether a
/// draw was missing, and what is sent. A speaker tells the notes.
fn tell_outbox(text: &mut String, by: Speaker, out: &Outbox) -> Mem<()> {
    for note in out.notes.as_slice() {
        tell_note(text, by, note)?;
    }
    tell_accepted(text, &out.accepted)?;
    for used in out.used.as_slice() {
        tell_used(text, used)?;
    }
    if out.undrawn {
        text.push_str("undrawn\n")?;
    }
    for sent in out.sent.as_slice() {
        tell_sent(text, sent)?;
    }
    Ok(())
}

fn tell_note(text: &mut String, by: Speaker, note: &Note) -> Mem<()> {
    text.push_str("note ")?;
    let line = Line::Note { by, note: *note };
    line.push_to(text)
}

fn tell_accepted(text: &mut String, seal: &Option<Seal>) -> Mem<()> {
    if seal.is_none() {
        return Ok(());
    }
    text.push_str("accepted ")?;
    tell_seal(text, seal)?;
    Ok(text.push_str("\n")?)
}

/// Adds a seal, or `-` where there is none.
fn tell_seal(text: &mut String, seal: &Option<Seal>) -> Mem<()> {
    let Some(seal) = seal else {
        return Ok(text.push_str("-")?);
    };
    let (owner, boot, number, seq) = (end_letter(seal.owner), seal.boot, seal.number, seal.seq);
    Ok(write!(text, "{owner}.{boot}.{number}.{seq}")?)
}

fn end_letter(end: End) -> &'static str {
    match end {
        End::Source => "s",
        End::Dest => "d",
        End::Client => "c",
    }
}

fn tell_used(text: &mut String, used: &Used) -> Mem<()> {
    tell_call(text, used.call)?;
    text.push_str(answer_words(used.answer))?;
    Ok(())
}

fn tell_call(text: &mut String, call: VolumeCall) -> Mem<()> {
    match call {
        VolumeCall::Read { .. } => text.push_str("used read")?,
        VolumeCall::Write { file, off, len } => write!(text, "used write {file} {off} {len}")?,
        VolumeCall::Commit { file, .. } => write!(text, "used commit {file}")?,
    }
    Ok(())
}

/// What a call was answered by, as the end of a line.
fn answer_words(answer: CallAnswer) -> &'static str {
    match answer {
        CallAnswer::Done => " done\n",
        CallAnswer::DiskFailed => " failed\n",
        CallAnswer::Refused => " refused\n",
    }
}

fn tell_sent(text: &mut String, sent: &Outgoing) -> Mem<()> {
    text.push_str("sent ")?;
    tell_to(text, sent.to)?;
    tell_seal(text, &sent.seal)?;
    text.push_str(" ")?;
    tell_hex(text, sent.bytes.as_slice())?;
    tell_label(text, &sent.label)
}

/// Adds to whom a record goes.
fn tell_to(text: &mut String, to: To) -> Mem<()> {
    let (letter, number) = match to {
        To::Conn(conn) => ("c", Some(conn)),
        To::Source(worker) => ("w", Some(u32::from(worker))),
        To::Server(end) => (end_letter(end), None),
    };
    text.push_str(letter)?;
    if let Some(number) = number {
        write!(text, "{number}")?;
    }
    Ok(text.push_str(" ")?)
}

/// Adds bytes in hex.
pub fn tell_hex(text: &mut String, bytes: &[u8]) -> Mem<()> {
    for byte in bytes {
        write!(text, "{byte:02x}")?;
    }
    Ok(())
}

/// Adds what a record is called, as the end of a line.
fn tell_label(text: &mut String, label: &Label) -> Mem<()> {
    let (name, number) = label_words(label);
    text.push_str(" ")?;
    text.push_str(name)?;
    if let Some(number) = number {
        write!(text, " {number}")?;
    }
    Ok(text.push_str("\n")?)
}

/// What a record is called, and the status or reason behind that, where there is one.
fn label_words(label: &Label) -> (&'static str, Option<u32>) {
    match label {
        Label::Call(to) => (call_name(*to), None),
        Label::Reply { to, status } => (call_name(*to), Some(*status)),
        Label::Denied(why) => ("denied", Some(*why)),
        Label::Mismatch => ("mismatch", None),
        Label::Fault(stat) => ("fault", Some(*stat)),
    }
}

fn call_name(to: CallLabel) -> &'static str {
    match to {
        CallLabel::Init => "INIT",
        CallLabel::Create => "CREATE",
        CallLabel::Destroy => "DESTROY",
        CallLabel::Null => "NULL",
        CallLabel::Compound => "COMPOUND",
        CallLabel::Operation(op) => name_of(op),
        CallLabel::Callback(op) => cb_name_of(op),
    }
}
