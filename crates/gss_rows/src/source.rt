//! Calls to the source, whose contexts are kept from line to line.

use crate::told::{bytes_at, tell, tell_hex};
use gss_ctx::{Caller, Inited, named_by};
use nfs_base::{End, Seal};
use outcome::Mem;
use row_text::{number, word};
use std::alloc::Global;
use std::fmt::Write;
use streams::MemDraws;
use two_ends::{Asked, Server, Wrong};
use wire_xdr::Octets;

/// `source SECOND`: a source with context 1, which was made at this second.
pub fn made_at(alloc: Global, words: &[&str]) -> Result<Server, Wrong> {
    Server::with_context(alloc, u64::from(number(words, 1)))
}

/// The answers to `init SECOND`, `inits TIMES SECOND`, `undrawn SECOND`, `create PARENT SECOND`, `call ..` and
/// `record SECOND RECORD`; `token TEXT`, with which it is begun from then on; `accept TOKEN`; `destroy NUMBER`;
/// `contexts AFTER SECOND`, with the next number and the count of those made and of draws; and `seal NUMBER SEQ`.
pub fn told(
    alloc: Global,
    source: &mut Server,
    words: &[&str],
    text: &mut String,
) -> Result<(), Wrong> {
    let (first, second) = (number(words, 1), number(words, 2));
    match word(words, 0) {
        "init" => init(alloc, source, u64::from(first), text),
        "inits" => inits(alloc, source, first, u64::from(second), text),
        "undrawn" => undrawn(alloc, source, u64::from(first), text),
        "create" => create(alloc, source, first, u64::from(second), text),
        "call" => call(alloc, source, words, text),
        "record" => recorded(alloc, source, words, text),
        "token" => token(alloc, source, words, text),
        "accept" => accept(alloc, source, words, text),
        "destroy" => destroy(source, first, text),
        "contexts" => Ok(contexts(source, first, u64::from(second), text)?),
        "seal" => Ok(seals(source, first, second, text)?),
        _ => Ok(tell(text, "no such call")?),
    }
}

fn destroy(source: &mut Server, number: u32, text: &mut String) -> Result<(), Wrong> {
    source.contexts.destroy(number);
    Ok(tell(text, "gone")?)
}

fn init(alloc: Global, source: &mut Server, now: u64, text: &mut String) -> Result<(), Wrong> {
    let made = source.init(alloc, now)?;
    write!(text, "{made:?}")?;
    Ok(())
}

fn inits(
    alloc: Global,
    source: &mut Server,
    times: u32,
    now: u64,
    text: &mut String,
) -> Result<(), Wrong> {
    for _ in 0..times {
        source.init(alloc, now)?;
    }
    write!(text, "made {}", source.contexts.made())?;
    Ok(())
}

/// INIT whose draw fails.
fn undrawn(alloc: Global, source: &mut Server, now: u64, text: &mut String) -> Result<(), Wrong> {
    let failing = Vec::from_slice(alloc, &[1])?;
    let mut draws = MemDraws::new(Vec::new(alloc), failing);
    if source.contexts.made() == u32::MAX {
        return Err(Wrong::Lacks("a number"));
    }
    let token = source.token.as_slice();
    let inited = source
        .contexts
        .init(alloc, token, now, &source.mech, &mut draws)?;
    Ok(tell_made(&inited, text)?)
}

fn tell_made(inited: &Inited, text: &mut String) -> Mem<()> {
    match inited {
        Inited::Made { .. } => text.push_str("made")?,
        Inited::Refused { minor } => write!(text, "Refused({minor})")?,
    }
    Ok(())
}

fn create(
    alloc: Global,
    source: &mut Server,
    parent: u32,
    now: u64,
    text: &mut String,
) -> Result<(), Wrong> {
    let made = source.create(alloc, parent, now)?;
    write!(text, "{made:?}")?;
    Ok(())
}

/// `call SECOND VERSION PROC SEQ SERVICE NUMBER INNER`: a call by hand, the codes of which are made with the key of
/// context 2 where it names this, else of context 1.
fn call(
    alloc: Global,
    source: &mut Server,
    words: &[&str],
    text: &mut String,
) -> Result<(), Wrong> {
    let asked = asked(words);
    let key = source.key(if asked.number == 2 { 2 } else { 1 })?;
    let record_ = asked.record(alloc, &key)?;
    taken(alloc, source, &record_, number(words, 1), text)
}

fn recorded(
    alloc: Global,
    source: &mut Server,
    words: &[&str],
    text: &mut String,
) -> Result<(), Wrong> {
    let record_ = bytes_at(alloc, words, 2)?;
    taken(alloc, source, &record_, number(words, 1), text)
}

fn asked(words: &[&str]) -> Asked {
    Asked {
        version: number(words, 2),
        gss_proc: number(words, 3),
        seq: number(words, 4),
        service: number(words, 5),
        number: number(words, 6),
        inner: number(words, 7),
    }
}

fn taken(
    alloc: Global,
    source: &mut Server,
    record_: &[u8],
    now: u32,
    text: &mut String,
) -> Result<(), Wrong> {
    let told = source.take(alloc, record_, u64::from(now))?;
    write!(text, "{told:?}")?;
    Ok(())
}

fn token(
    alloc: Global,
    source: &mut Server,
    words: &[&str],
    text: &mut String,
) -> Result<(), Wrong> {
    source.token = Octets::from_vec(bytes_at(alloc, words, 1)?);
    Ok(tell(text, "kept")?)
}

/// INIT with a token at second 0: the verifier, the handle, the window and the token that goes back.
fn accept(
    alloc: Global,
    source: &mut Server,
    words: &[&str],
    text: &mut String,
) -> Result<(), Wrong> {
    let token = bytes_at(alloc, words, 1)?;
    if source.contexts.made() == u32::MAX {
        return Err(Wrong::Lacks("a number"));
    }
    let inited = source
        .contexts
        .init(alloc, &token, 0, &source.mech, &mut source.draws)?;
    Ok(tell_inited(&inited, text)?)
}

fn tell_inited(inited: &Inited, text: &mut String) -> Mem<()> {
    match inited {
        Inited::Made {
            handle,
            window,
            token,
            verifier,
        } => {
            tell_hex(text, verifier)?;
            tell(text, " ")?;
            tell_hex(text, handle)?;
            write!(text, " {window} ")?;
            tell_hex(text, token.as_slice())?;
        }
        Inited::Refused { minor } => write!(text, "Refused({minor})")?,
    }
    Ok(())
}

fn contexts(source: &Server, after: u32, now: u64, text: &mut String) -> Mem<()> {
    let next = source.contexts.next(after, now);
    let (made, drawn) = (source.contexts.made(), source.draws.count());
    write!(text, "next {next:?} made {made} drawn {drawn}")?;
    Ok(())
}

/// The handle of a context and what it names, and the seal of a number under it at both ends.
fn seals(source: &Server, context: u32, seq: u32, text: &mut String) -> Mem<()> {
    let handle = source.contexts.handle(context);
    let caller = Caller::new(End::Source, handle, [0; 32]);
    let here = source.contexts.seal(context, seq);
    if here != caller.seal(seq) {
        return tell(text, "two seals");
    }
    tell_hex(text, &handle)?;
    tell_seal(named_by(&handle), here, text)
}

fn tell_seal(named: (u32, u32), seal: Seal, text: &mut String) -> Mem<()> {
    write!(text, " {named:?} {:?} ", seal.owner)?;
    write!(text, "{} {} {}", seal.boot, seal.number, seal.seq)?;
    Ok(())
}
