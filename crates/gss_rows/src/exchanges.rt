//! Recorded calls and their replies, which both ends make and take byte for byte.

ghost use Rattle.rpc_msg.specs.Heads.{call};

use crate::told::{bytes_at, carried, tell, tell_hex, tell_where};
use gss_ctx::{Checked, Sealed, init_call as sealed_init};
use gss_mech::{Mechanism, Realm};
use std::alloc::Global;
use two_ends::{Call, Client, Server, Wrong};

/// The handles of the source's first two contexts.
const FIRST: [u8; 8] = [0, 0, 0, 1, 0, 0, 0, 1];

const SECOND: [u8; 8] = [0, 0, 0, 1, 0, 0, 0, 2];

/// The client of context 1.
pub fn client(source: &Server) -> Result<Client, Wrong> {
    Ok(Client::new(FIRST, source.key(1)?))
}

/// The client of context 2, which is made as a child of context 1 by the call that copies the principal.
pub fn child(alloc: Global, source: &mut Server) -> Result<Client, Wrong> {
    if source.contexts.made() == u32::MAX || !source.contexts.is_root(1, 0) {
        return Err(Wrong::Lacks("a parent"));
    }
    let made = source.contexts.create_child(alloc, 1, 77, 0, &source.mech)?;
    if made != Ok(2) {
        return Err(Wrong::Lacks("context 2"));
    }
    let key = source.mech.derive(&source.key(1)?, 4, &SECOND);
    Ok(Client::new(SECOND, key))
}

/// A recorded call and its reply.
#[derive(Clone, Copy)]
struct Records<'a> {
    sent: &'a [u8],
    answered: &'a [u8],
}

/// `exchange CALL REPLY`: what the source and the client that are kept make of a call and its reply: the client seals what
/// the call carries, the source seals what the reply carries, and the client takes it.
pub fn exchange(
    alloc: Global,
    (source, client): (&mut Server, &mut Client),
    words: &[&str],
    text: &mut String,
) -> Result<(), Wrong> {
    let (sent, answered) = (bytes_at(alloc, words, 1)?, bytes_at(alloc, words, 2)?);
    let records = Records {
        sent: &sent,
        answered: &answered,
    };
    let told = source.admit(alloc, records.sent)?;
    exchanged(alloc, source, client, &told, records, text)
}

/// What both ends make of a call that was admitted and its reply.
fn exchanged(
    alloc: Global,
    source: &Server,
    client: &mut Client,
    told: &Call,
    records: Records<'_>,
    text: &mut String,
) -> Result<(), Wrong>
    requires { call.Fits told.now.head }
{
    let sealed = called(alloc, client, told, records, &source.mech, text)?;
    replied(alloc, source, told, records, text)?;
    taken(alloc, client, &sealed, records, &source.mech, text)
}

/// The client seals what a call carries.
fn called(
    alloc: Global,
    client: &mut Client,
    told: &Call,
    records: Records<'_>,
    mech: &Realm,
    text: &mut String,
) -> Result<Sealed, Wrong> {
    let same = told.args.as_slice() == carried(records.sent, 108)?;
    tell_where(same, text, "its arguments; ")?;
    let gss_proc = if told.head.proc == 0 { 5 } else { 0 };
    let asked = (told.head.xid, told.head.proc, gss_proc);
    let sealed = client.seal(alloc, asked, told.args.as_slice(), mech)?;
    let same = sealed.bytes.as_slice() == records.sent;
    tell_where(same, text, "the call; ")?;
    Ok(sealed)
}

/// The source seals what the reply carries.
fn replied(
    alloc: Global,
    source: &Server,
    told: &Call,
    records: Records<'_>,
    text: &mut String,
) -> Result<(), Wrong>
    requires { call.Fits told.now.head }
{
    let reply = source.reply(alloc, told, carried(records.answered, 64)?)?;
    let same = reply.as_slice() == records.answered;
    Ok(tell_where(same, text, "the reply; ")?)
}

/// The client takes the reply.
fn taken(
    alloc: Global,
    client: &Client,
    sealed: &Sealed,
    records: Records<'_>,
    mech: &Realm,
    text: &mut String,
) -> Result<(), Wrong> {
    let wanted = carried(records.answered, 64)?;
    let checked = client.check(alloc, sealed, records.answered, mech)?;
    Ok(tell(text, result_word(&checked, wanted))?)
}

fn result_word(checked: &Checked, wanted: &[u8]) -> &'static str {
    match checked {
        Checked::Result(given) if given.as_slice() == wanted => "its result",
        _ => "another result",
    }
}

/// `init_call`: INIT with the source's token as the client calls it, xid 1.
pub fn init_call(alloc: Global, source: &Server, text: &mut String) -> Result<(), Wrong> {
    if source.token.len() > 4096 {
        return Err(Wrong::Lacks("a short token"));
    }
    let call = sealed_init(alloc, 1, source.token.as_slice())?;
    Ok(tell_hex(text, call.as_slice())?)
}
