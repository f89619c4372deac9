//! What a step works on.

ghost use Rattle.std.specs.Prelude.{◌≡◌, ◌<◌, ◌≤◌, length, is_some, IfOk};
ghost use Rattle.nfs_base.specs.declared.limits.TheConstants.{PRIVILEGE_LIMIT};
ghost use Rattle.client_copies.specs.declared.table.TheConstants.{MOST_COPIES};
ghost use Rattle.mount.specs.State.{IsChild};
ghost use Rattle.mount.specs.declared.state.TheConstants.{PLACES};
ghost use Rattle.session_calls.specs.Calls.{SlotCallFits};
ghost use Rattle.client_steps.specs.Desks as spec;

use client_copies::{CopyTable, Event, Said, Word};
use client_site::{Site, end_of};
use mount::{SendAt, Sent};
use nfs_base::{Seal, Side};
use outbox::{CallLabel, Label, Note, Outbox, Outgoing, To};
use outcome::Mem;
use wire_xdr::{Items, Octets};

/// What a step works on: a copy of the client's parts, which comes in their place when all went well, and the outbox. The
/// queues are planned by themselves.
#[derive(Drop)]
pub struct Desk {
    pub second: u64,
    pub calls: u32,
    pub source: Site,
    pub dest: Site,
    pub copies: CopyTable,

    /// From which key a context for callbacks is to be made.
    pub made: Option<[u8; 32]>,

    /// The contexts for callbacks that are to end.
    pub ended: Items<u32>,

    pub out: Outbox,
}

impl Desk {
    /// What the client has at a server.
    pub fn site(&self, side: Side) -> &Site
        ensures { result.now ≡ spec.site_at side self.now }
    {
        match side {
            Side::Source => &self.source,
            Side::Dest => &self.dest,
        }
    }

    /// Adds a note.
    pub fn note(&mut self, note: Note) -> Mem<()>
        ensures { IfOk result (λ _. self.new ≡ spec.noted note self.old) }
    {
        self.out.notes.add(note)
    }

    /// Notes what a copy says.
    pub fn note_said(&mut self, j: u32, said: Said) -> Mem<()>
        ensures { IfOk result (λ _. self.new ≡ spec.said_by j said self.old) }
    {
        match said {
            Said::Nothing => Ok(()),
            Said::One(word) => self.note(word_note(j, word)),
            Said::Two(first, second) => {
                self.note(word_note(j, first))?;
                self.note(word_note(j, second))
            }
        }
    }

    /// Something happens to a copy, and what it says is noted.
    pub fn tell(&mut self, j: u32, event: Event) -> Mem<()>
        requires { j < MOST_COPIES }
        ensures { IfOk result (λ _. self.new ≡ spec.told_to j event self.old) }
    {
        let said = self.copies.on(j, event);
        self.note_said(j, said)
    }

    /// How the next call is to go out.
    pub fn send_at(&self, place: u32) -> SendAt
        ensures { result ≡ spec.send_at place self.now }
    {
        SendAt {
            place,
            xid: self.calls.saturating_add(1),
            now: self.second,
        }
    }

    /// A record goes out.
    pub fn post(&mut self, side: Side, bytes: Octets, seal: Option<Seal>, label: Label) -> Mem<()>
        ensures { IfOk result (λ _. self.new ≡ spec.posted (spec.going side bytes seal label) self.old) }
    {
        self.out.sent.push(Outgoing {
            to: To::Server(end_of(side)),
            bytes,
            seal,
            label,
        })
    }

    /// A call that went out of the mount is counted and posted. Whether there was one.
    pub fn send_out(&mut self, side: Side, label: CallLabel, sent: Option<Sent>) -> Mem<bool>
        ensures told { IfOk result (λ told. told ≡ is_some sent) }
        ensures after { IfOk result (λ told. self.new ≡ spec.sent_out side label sent self.old) }
    {
        let Some(Sent { bytes, seal }) = sent else {
            return Ok(false);
        };
        self.calls = self.calls.saturating_add(1);
        self.post(side, bytes, seal, Label::Call(label))?;
        Ok(true)
    }
}

/// A copy's number in a note: one byte.
pub(crate) fn in_note(j: u32) -> u8
    ensures { result ≡ spec.in_note j }
{
    j.min(255) as u8
}

fn word_note(j: u32, word: Word) -> Note
    ensures { result ≡ spec.word_note j word }
{
    let copy = in_note(j);
    match word {
        Word::Started => Note::Started { copy },
        Word::Copied(count) => Note::Copied { copy, count },
        Word::Stable => Note::Stable { copy },
        Word::Failed(status) => Note::Failed { copy, status },
        Word::Exact => Note::Exact { copy },
        Word::Unsure => Note::Unsure { copy },
        Word::Cancelled => Note::Cancelled { copy },
    }
}
