//! A recorded callback of the destination, and the client's reply to it.

ghost use Rattle.rpc_msg.specs.Heads.{call};

use crate::told::{bytes_at, part, tell_where};
use gss_ctx::Contexts;
use gss_mech::{Mechanism, Realm};
use nfs_base::{End, Seal};
use outcome::Mem;
use std::alloc::Global;
use std::fmt::Write;
use streams::CountDraws;
use two_ends::{Call, Server, Wrong, realm};
use wire_xdr::Octets;

/// The key of the client's context at the destination, by the tokens of INIT and its reply.
fn key_at_dest(mech: &Realm, call: &[u8], reply: &[u8]) -> Result<[u8; 32], Wrong> {
    let drawn = part(call, 72, 104)?;
    let mut nonce = [0; 32];
    if drawn.len() != 32 {
        return Err(Wrong::Lacks("a nonce"));
    }
    nonce.copy_from_slice(drawn);
    match mech.finish(b"user", &nonce, part(reply, 84, 148)?) {
        Some(key) => Ok(key),
        None => Err(Wrong::Lacks("a key")),
    }
}

/// Adds the client's context for the callbacks of a principal, which has to have this number.
fn add(
    alloc: Global,
    contexts: &mut Contexts<u8>,
    mech: &Realm,
    (number, principal, key): (u32, &[u8], &[u8; 32]),
) -> Result<(), Wrong> {
    if contexts.made() == u32::MAX {
        return Err(Wrong::Lacks("a number"));
    }
    match contexts.add(alloc, principal, key, 0, mech)? {
        Some(given) if given == number => Ok(()),
        _ => Err(Wrong::Lacks("a context")),
    }
}

/// The client as the end that is called back, with its contexts: of `source`, and of `dest` with this key.
fn called_end(alloc: Global, mech: Realm, key: &[u8; 32]) -> Result<Server, Wrong> {
    let contexts = both_contexts(alloc, &mech, key)?;
    Ok(Server {
        mech,
        contexts,
        draws: CountDraws::new(),
        token: Octets::from_vec(Vec::new(alloc)),
    })
}

fn both_contexts(alloc: Global, mech: &Realm, key: &[u8; 32]) -> Result<Contexts<u8>, Wrong> {
    let mut contexts = Contexts::new(alloc, End::Client, 0)?;
    add(alloc, &mut contexts, mech, (1, b"source", &[0; 32]))?;
    add(alloc, &mut contexts, mech, (2, b"dest", key))?;
    Ok(contexts)
}

/// `callback INIT REPLY CALL REPLY`: the destination's callback under context 2 of the client, whose key is that of the
/// first exchange, and the reply to it by the call that seals at once.
pub fn callback(alloc: Global, words: &[&str], text: &mut String) -> Result<(), Wrong> {
    let mut client = client_of(alloc, words)?;
    let (sent, answered) = (bytes_at(alloc, words, 3)?, bytes_at(alloc, words, 4)?);
    answer(alloc, &mut client, (&sent, &answered), text)
}

/// The client that has the context which INIT and its reply made.
fn client_of(alloc: Global, words: &[&str]) -> Result<Server, Wrong> {
    let mech = realm(alloc)?;
    let key = key_of(alloc, &mech, words)?;
    called_end(alloc, mech, &key)
}

fn key_of(alloc: Global, mech: &Realm, words: &[&str]) -> Result<[u8; 32], Wrong> {
    let (init, made) = (bytes_at(alloc, words, 1)?, bytes_at(alloc, words, 2)?);
    key_at_dest(mech, &init, &made)
}

/// The seal of the callback, and whether its arguments and the reply are those of the records.
fn answer(
    alloc: Global,
    client: &mut Server,
    (sent, answered): (&[u8], &[u8]),
    text: &mut String,
) -> Result<(), Wrong> {
    let told = client.admit(alloc, sent)?;
    if client.contexts.context(told.number).is_none() {
        return Err(Wrong::Lacks("a context"));
    }
    tell_seal(client.contexts.seal(told.number, told.seq), text)?;
    let same = told.args.as_slice() == part(sent, 108, 228)?;
    tell_where(same, text, "its arguments; ")?;
    let same = is_reply(alloc, client, &told, answered)?;
    Ok(tell_where(same, text, "the reply")?)
}

fn tell_seal(seal: Seal, text: &mut String) -> Mem<()> {
    write!(text, "{:?} {} ", seal.owner, seal.boot)?;
    write!(text, "{} {}; ", seal.number, seal.seq)?;
    Ok(())
}

/// Whether what the client seals, where the result is that of a reply, is that reply.
fn is_reply(alloc: Global, client: &Server, told: &Call, answered: &[u8]) -> Result<bool, Wrong>
    requires { call.Fits told.now.head }
{
    let given = part(answered, 64, 124)?;
    if given.len() > 60 || client.contexts.context(told.number).is_none() {
        return Err(Wrong::Lacks("a short result of a context"));
    }
    let (number, seq) = (told.number, told.seq);
    let sealed = client
        .contexts
        .seal_reply(alloc, number, seq, &told.head, given, &client.mech)?;
    Ok(sealed.as_slice() == answered)
}
