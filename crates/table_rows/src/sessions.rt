//! Clients and their sessions.

use crate::fields::{long, tell, tell_flag, tell_status};
use crate::slots::session_id;
use outcome::Mem;
use row_text::{number, word};
use sess_slots::{Created, Exchanged, Sessions};
use std::fmt::Write;

/// The answers to `exchange OWNER VERIFIER SECOND` and `create CLIENT SEQUENCE BACK`; `destroy SESSION`, `reclaim CLIENT`
/// and `destroy_client CLIENT HOLDS`, with a status; `lapsed CLIENT SECOND`; and `back SESSION`.
pub fn answer(sessions: &mut Sessions, words: &[&str], text: &mut String) -> Mem<()> {
    let client = long(words, 1);
    match word(words, 0) {
        "exchange" => exchange(sessions, words, text),
        "create" => create(sessions, words, text),
        "destroy" => tell_status(sessions.destroy(&session_id(number(words, 1))), text),
        "reclaim" => tell_status(sessions.reclaim(client), text),
        "destroy_client" => {
            tell_status(
                sessions.destroy_client(client, word(words, 2) == "holds"),
                text,
            )
        }
        "lapsed" => tell_flag(sessions.lapsed(client, u64::from(number(words, 2))), text),
        "back" => tell_flag(sessions.back_of(number(words, 1)).is_some(), text),
        _ => tell(text, "no such call"),
    }
}

/// EXCHANGE_ID of the principal `user` with an owner of one byte and a verifier that repeats one: the client's ID and how
/// many clients were ended, or a status.
fn exchange(sessions: &mut Sessions, words: &[&str], text: &mut String) -> Mem<()> {
    if sessions.made() == u32::MAX {
        return tell(text, "no number is left");
    }
    let owner = number(words, 1).to_be_bytes();
    let verifier = [number(words, 2).to_be_bytes()[3]; 8];
    let second = u64::from(number(words, 3));
    let exchanged = sessions.exchange(b"user", &owner[3..], &verifier, second)?;
    tell_exchanged(&exchanged, text)
}

fn tell_exchanged(exchanged: &Exchanged, text: &mut String) -> Mem<()> {
    match exchanged {
        Exchanged::Client { id, ended, .. } => {
            Ok(write!(text, "client {id} ended {}", ended.as_slice().len())?)
        }
        Exchanged::Refused(why) => tell_status(*why, text),
    }
}

/// CREATE_SESSION that asks for a back channel where BACK is `back`: the session's number, whether a back channel was
/// asked for when it was made, and the client that was ended, or a status.
fn create(sessions: &mut Sessions, words: &[&str], text: &mut String) -> Mem<()> {
    if sessions.made() == u32::MAX {
        return tell(text, "no number is left");
    }
    let asks = word(words, 3) == "back";
    let back = Some([7; 8]);
    let created = sessions.create(long(words, 1), number(words, 2), 5, 6, asks, back, 0)?;
    tell_created(&created, text)
}

fn tell_created(created: &Created, text: &mut String) -> Mem<()> {
    match created {
        Created::Made {
            session,
            ended,
            asked,
            ..
        } => Ok(write!(text, "session {} asked {asked} ended {ended:?}", session[7])?),
        Created::Refused(why) => tell_status(*why, text),
    }
}
