//! Recorded calls and replies with a byte changed.

use crate::exchanges::client;
use crate::told::{Places, bytes_at, tell, turned};
use gss_ctx::{Begun, Checked, Sealed, init_reply};
use gss_mech::Realm;
use outcome::Mem;
use row_text::number;
use std::alloc::Global;
use std::fmt::Write;
use streams::CountDraws;
use two_ends::{Client, Server, Told, Wrong, drawn};

/// `turned_call FROM TO BITS CALL`: what becomes of a call at a source with context 1 where these bits are turned in the
/// byte at each of these places, and of the call itself behind it.
pub fn calls(alloc: Global, words: &[&str], text: &mut String) -> Result<(), Wrong> {
    let (from, to) = (number(words, 1) as usize, number(words, 2) as usize);
    let bits = number(words, 3).to_be_bytes()[3];
    let call = bytes_at(alloc, words, 4)?;
    let mut places = Places::new(alloc);
    for at in from..to {
        let answer = call_at(alloc, &call, at, bits)?;
        places.tell(text, at, answer)?;
    }
    Ok(())
}

/// How the two are told.
fn call_at(alloc: Global, call: &[u8], at: usize, bits: u8) -> Result<String, Wrong> {
    let (first, second) = both(alloc, call, at, bits)?;
    Ok(format!(in alloc; "{first:?}, {second:?}")?)
}

/// What becomes of a call with these bits turned at a place, and then of the call itself.
fn both(alloc: Global, call: &[u8], at: usize, bits: u8) -> Result<(Told, Told), Wrong> {
    let mut source = Server::with_context(alloc, 0)?;
    let first = source.take(alloc, &turned(alloc, call, at, bits)?, 0)?;
    let second = source.take(alloc, call, 0)?;
    Ok((first, second))
}

/// `reply RECORD`: what a client takes a record for that awaits the reply to its fifth call under context 1, xid 6.
pub fn reply(alloc: Global, words: &[&str], text: &mut String) -> Result<(), Wrong> {
    let record_ = bytes_at(alloc, words, 1)?;
    take(alloc, &record_, text)
}

/// `turned_reply REPLY`: the same of a reply with the last bit of each byte turned.
pub fn replies(alloc: Global, words: &[&str], text: &mut String) -> Result<(), Wrong> {
    let reply = bytes_at(alloc, words, 1)?;
    let mut places = Places::new(alloc);
    for at in 0..reply.len() {
        let answer = reply_at(alloc, &reply, at)?;
        places.tell(text, at, answer)?;
    }
    Ok(())
}

fn reply_at(alloc: Global, reply: &[u8], at: usize) -> Result<String, Wrong> {
    let record_ = turned(alloc, reply, at, 1)?;
    let mut answer = String::new(alloc);
    take(alloc, &record_, &mut answer)?;
    Ok(answer)
}

fn take(alloc: Global, record_: &[u8], text: &mut String) -> Result<(), Wrong> {
    let source = Server::with_context(alloc, 0)?;
    let mut client = client(&source)?;
    awaited(alloc, &mut client, &source.mech, record_, text)
}

/// Tells what a record is to the fifth call.
fn awaited(
    alloc: Global,
    client: &mut Client,
    mech: &Realm,
    record_: &[u8],
    text: &mut String,
) -> Result<(), Wrong> {
    let sealed = fifth(alloc, client, mech)?;
    let checked = client.check(alloc, &sealed, record_, mech)?;
    Ok(tell_checked(&checked, sealed.awaited.seq, text)?)
}

/// The fifth call of a client.
fn fifth(alloc: Global, client: &mut Client, mech: &Realm) -> Result<Sealed, Wrong> {
    for _ in 0..4 {
        client.seal(alloc, (6, 1, 0), &[], mech)?;
    }
    client.seal(alloc, (6, 1, 0), &[], mech)
}

fn tell_checked(checked: &Checked, seq: u32, text: &mut String) -> Mem<()> {
    match checked {
        Checked::Result(_) => write!(text, "Result of {seq}")?,
        Checked::Failed(stat) => write!(text, "Failed({stat:?})")?,
        Checked::Denied(why) => write!(text, "Denied({why:?})")?,
        Checked::Unmatched => text.push_str("Unmatched")?,
    }
    Ok(())
}

/// `init_reply RECORD`: what a record makes at a client that awaits the reply to the INIT of `user`, xid 1.
pub fn init(alloc: Global, words: &[&str], text: &mut String) -> Result<(), Wrong> {
    let record_ = bytes_at(alloc, words, 1)?;
    begin(alloc, &record_, text)
}

/// `turned_init REPLY`: the same of a reply with the last bit of each byte turned.
pub fn inits(alloc: Global, words: &[&str], text: &mut String) -> Result<(), Wrong> {
    let reply = bytes_at(alloc, words, 1)?;
    let mut places = Places::new(alloc);
    for at in 0..reply.len() {
        let answer = init_at(alloc, &reply, at)?;
        places.tell(text, at, answer)?;
    }
    Ok(())
}

fn init_at(alloc: Global, reply: &[u8], at: usize) -> Result<String, Wrong> {
    let record_ = turned(alloc, reply, at, 1)?;
    let mut answer = String::new(alloc);
    begin(alloc, &record_, &mut answer)?;
    Ok(answer)
}

fn begin(alloc: Global, record_: &[u8], text: &mut String) -> Result<(), Wrong> {
    let source = Server::with_context(alloc, 0)?;
    let (nonce, key) = (drawn(&mut CountDraws::new())?, source.key(1)?);
    let begun = init_reply(alloc, 1, b"user", &nonce, record_, &source.mech)?;
    Ok(tell_begun(begun, &key, text)?)
}

/// A context that is made is told with its handle, and whether its key is that of the source's context 1.
fn tell_begun(begun: Begun, kept: &[u8; 32], text: &mut String) -> Mem<()> {
    match begun {
        Begun::Made { handle, key } => {
            write!(text, "Made({handle:?}) with ")?;
            tell(text, key_word(key == *kept))?;
        }
        Begun::Refused { major } => write!(text, "Refused({major})")?,
        Begun::Failed(stat) => write!(text, "Failed({stat:?})")?,
        Begun::Denied(why) => write!(text, "Denied({why:?})")?,
        Begun::Unmatched => text.push_str("Unmatched")?,
    }
    Ok(())
}

fn key_word(same: bool) -> &'static str {
    if same { "its key" } else { "another key" }
}
