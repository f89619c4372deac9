//! The back channel of a session, from the side that calls.

ghost use Rattle.std.specs.Prelude.{◌≡◌, filter, IfOk, option_copied};
ghost use Rattle.dest_back.specs.Callbacks.{fresh_line, line_of, stays, with_line};

use crate::callbacks::Party;
use gss_ctx::{CALLBACK_KEY, Caller};
use gss_mech::Mechanism;
use nfs_base::End;
use outcome::Mem;
use sess_slots::{Back, Sessions};
use session_client::SlotNumbers;
use std::alloc::Global;

/// What a server has of a session's back channel: its side of the context that the client made for callbacks, with that
/// context's key, and the numbers of its calls by slot.
#[derive(Drop)]
pub struct Line {
    pub session: u32,
    pub key: [u8; 32],
    pub caller: Caller,
    pub numbers: SlotNumbers,
}

impl Line {
    /// Nothing was sent yet.
    pub(crate) fn new<M: Mechanism>(party: &Party, back: &Back, mech: &M) -> Line
        ensures { result ≡ fresh_line M.derived party.now back.now }
    {
        let handle = back.handle;
        let key = mech.derive(&party.key, CALLBACK_KEY, &handle);
        Line {
            session: party.session,
            key,
            caller: Caller::new(End::Client, handle, key),
            numbers: SlotNumbers::new(),
        }
    }

    /// The same once more.
    pub(crate) fn copy(&self) -> Line
        ensures { result ≡ self.now }
    {
        let key = self.key;
        Line {
            session: self.session,
            key,
            caller: self.caller.copy(),
            numbers: self.numbers.copy(),
        }
    }
}

pub(crate) fn copy_lines(alloc: Global, lines: &[Line]) -> Mem<Vec<Line>>
    ensures { IfOk result (λ copies. copies.items ≡ lines.now) }
{
    let mut copies = Vec::new(alloc);
    for line in lines {
        copies.push(line.copy())?;
    }
    Ok(copies)
}

/// The line of a session.
pub(crate) fn line_of(lines: &[Line], session: u32) -> Option<&Line>
    ensures { option_copied result ≡ line_of session lines.now }
{
    lines.iter().find(|line| line.session == session)
}

/// A session's line is this one from now on, and those are let go whose session is gone.
pub(crate) fn put_line(lines: &mut Vec<Line>, line: Line, sessions: &Sessions) -> Mem<()>
    ensures { IfOk result (λ told. lines.new.items ≡ with_line sessions.now line lines.old.items) }
{
    keep_others(lines, line.session, sessions);
    lines.push(line)?;
    Ok(())
}

fn keep_others(lines: &mut Vec<Line>, session: u32, sessions: &Sessions)
    ensures { lines.new.items ≡ filter (stays sessions.now session) lines.old.items }
{
    lines.retain(|line| stays(line, session, sessions));
}

fn stays(line: &Line, session: u32, sessions: &Sessions) -> bool
    ensures { result ≡ stays sessions.now session line.now }
{
    !(line.session == session) && sessions.back_of(line.session).is_some()
}
