//! Slots: one by itself, and those of sessions.

ghost use Rattle.std.specs.Prelude.{◌<◌, IsSome};
ghost use Rattle.nfs_base.specs.declared.limits.TheConstants.{SLOTS};
ghost use Rattle.sess_slots.specs.Begins.{client_at, reply_at};

use crate::fields::{tell, tell_hex};
use outcome::Mem;
use row_text::{bytes, number, word};
use sess_slots::{Begin, Kept, Place, Sessions, Slot};
use std::alloc::Global;
use std::fmt::Write;
use wire_xdr::Octets;

const AT: Place = Place {
    session: 1,
    slot: 3,
};

/// `slot LAST KEPT NUMBER ROOT`: what a number means under a root context on a slot with this last number, which keeps a
/// reply to the root KEPT, or none where that is no number.
pub fn slot(alloc: Global, words: &[&str], text: &mut String) -> Mem<()> {
    let slot = Slot {
        last: number(words, 1),
        kept: kept(alloc, word(words, 2))?,
    };
    tell_begin(slot.begin(AT, number(words, 3), number(words, 4)), text)
}

fn kept(alloc: Global, word: &str) -> Mem<Option<Kept>> {
    match word.parse::<u32>() {
        Ok(root) => Ok(Some(Kept {
            root,
            reply: Octets::from_slice(alloc, b"r")?,
        })),
        Err(_) => Ok(None),
    }
}

fn tell_begin(begin: Begin, text: &mut String) -> Mem<()> {
    Ok(write!(text, "{begin:?}")?)
}

/// The ID of a session of boot 2.
pub fn session_id(number: u32) -> [u8; 16] {
    let [a, b, c, d] = number.to_be_bytes();
    [0, 0, 0, 2, a, b, c, d, 0, 0, 0, 0, 0, 0, 0, 0]
}

/// `begin SESSION SLOT NUMBER ROOT SECOND REPLY`: what a call is. One that is new is finished with this reply at this
/// second; a repeated one is answered with the reply that is kept, and its client.
pub fn begin(alloc: Global, sessions: &mut Sessions, words: &[&str], text: &mut String) -> Mem<()> {
    let session = session_id(number(words, 1));
    let root = number(words, 4);
    match sessions.begin(&session, number(words, 2), number(words, 3), root) {
        Begin::New(place) => finish(alloc, sessions, place, words, text),
        Begin::Replay(place) => tell_kept(sessions, place, text),
        other => tell_begin(other, text),
    }
}

fn finish(
    alloc: Global,
    sessions: &mut Sessions,
    place: Place,
    words: &[&str],
    text: &mut String,
) -> Mem<()>
    requires there { IsSome (client_at sessions.old place.session) }
    requires slot { place.slot < SLOTS }
{
    let reply = bytes(alloc, words, 6)?;
    if reply.len() > 64 {
        return tell(text, "a long reply");
    }
    let root = number(words, 4);
    let now = u64::from(number(words, 5));
    sessions.finish(place, root, Octets::from_vec(reply), now);
    tell(text, "new")
}

fn tell_kept(sessions: &Sessions, place: Place, text: &mut String) -> Mem<()>
    requires there { IsSome (client_at sessions.now place.session) }
    requires slot { place.slot < SLOTS }
    requires kept { IsSome (reply_at sessions.now place) }
{
    tell(text, "kept ")?;
    tell_hex(sessions.kept(place), text)?;
    Ok(write!(text, " of {}", sessions.client_of(place))?)
}
