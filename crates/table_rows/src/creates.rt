//! What CREATE takes of a privilege, and what confirms one.

use crate::fields::{key, location, octets, tell};
use copy_privs::{
    Confirming, Peer, PrivCause, Privilege, confirm_matches, location_of, refuse_confirm,
    refuse_from, refuse_to,
};
use gss_mech::Realm;
use nfs_base::NetLoc;
use outcome::Mem;
use row_text::word;
use std::alloc::Global;
use std::fmt::Write;
use wire_xdr::{Items, Octets};

/// The answer to a call: `place PRINCIPAL`, whether a principal is a peer; `from LOC USER` and `to LOC LOC USER`, why a
/// privilege isn't taken from `user`, where the second location is the one place that it names; `matches CODE SECRET KEY`,
/// whether a code confirms a secret; and `confirms CODE KEY`, then `SECRET LOC USER` of each privilege that is carried. The
/// one peer is `dest` at the destination.
pub fn answer(alloc: Global, words: &[&str], text: &mut String) -> Mem<()> {
    match word(words, 0) {
        "place" => place(alloc, words, text),
        "from" => from(alloc, words, text),
        "to" => to(alloc, words, text),
        "matches" => matches(alloc, words, text),
        "confirms" => confirms(alloc, words, text),
        _ => tell(text, "no call"),
    }
}

/// The one peer.
fn peer(alloc: Global) -> Mem<Peer> {
    Ok(Peer {
        principal: Octets::from_slice(alloc, b"dest")?,
        loc: location(alloc, &["d"], 0)?,
    })
}

fn tell_cause(cause: Mem<Option<PrivCause>>, text: &mut String) -> Mem<()> {
    match cause? {
        Some(cause) => Ok(write!(text, "{cause:?}")?),
        None => tell(text, "taken"),
    }
}

fn place(alloc: Global, words: &[&str], text: &mut String) -> Mem<()> {
    let peers = [peer(alloc)?];
    let principal = octets(alloc, words, 1)?;
    let place = location_of(&peers, principal.as_slice());
    tell(text, if place.is_some() { "a peer" } else { "no peer" })
}

fn from(alloc: Global, words: &[&str], text: &mut String) -> Mem<()> {
    let destination = location(alloc, words, 1)?;
    tell_cause(from_cause(alloc, words, &destination), text)
}

fn from_cause(alloc: Global, words: &[&str], destination: &NetLoc) -> Mem<Option<PrivCause>> {
    let peers = [peer(alloc)?];
    let user = octets(alloc, words, 2)?;
    Ok(refuse_from(&peers, b"user", destination, user.as_slice()))
}

fn to(alloc: Global, words: &[&str], text: &mut String) -> Mem<()> {
    let source = location(alloc, words, 1)?;
    tell_cause(to_cause(alloc, words, &source), text)
}

fn to_cause(alloc: Global, words: &[&str], source: &NetLoc) -> Mem<Option<PrivCause>> {
    let places = places(alloc, words)?;
    let user = octets(alloc, words, 3)?;
    Ok(refuse_to(source, b"user", places.as_slice(), user.as_slice()))
}

fn places(alloc: Global, words: &[&str]) -> Mem<Items<NetLoc>> {
    let mut places = Items::new(alloc);
    if word(words, 2) != "-" {
        places.push(location(alloc, words, 2)?)?;
    }
    Ok(places)
}

fn matches(alloc: Global, words: &[&str], text: &mut String) -> Mem<()> {
    let code = octets(alloc, words, 1)?;
    let secret = octets(alloc, words, 2)?;
    tell_match(
        alloc,
        code.as_slice(),
        secret.as_slice(),
        &key(words, 3),
        text,
    )
}

fn tell_match(
    alloc: Global,
    code: &[u8],
    secret: &[u8],
    key: &[u8; 32],
    text: &mut String,
) -> Mem<()> {
    let realm = Realm::new(alloc, &[])?;
    let is_met = confirm_matches(code, secret, key, &realm);
    tell(text, if is_met { "yes" } else { "no" })
}

/// How far a confirmation of `dest` and `user` with this code comes behind each of the privileges.
fn confirms(alloc: Global, words: &[&str], text: &mut String) -> Mem<()> {
    let code = octets(alloc, words, 1)?;
    let asked = Confirming {
        principal: b"dest",
        key: &key(words, 2),
        code: code.as_slice(),
        user: b"user",
    };
    tell_each(alloc, words, &asked, text)
}

fn tell_each(alloc: Global, words: &[&str], asked: &Confirming<'_>, text: &mut String) -> Mem<()> {
    let mut cause = Some(PrivCause::Unknown);
    for words in words.chunks(3).skip(1) {
        cause = next_cause(alloc, cause, words, asked)?;
        tell_cause(Ok(cause), text)?;
        tell(text, "; ")?;
    }
    Ok(())
}

/// How far a confirmation comes behind one more privilege, that of `SECRET LOC USER`.
fn next_cause(
    alloc: Global,
    cause: Option<PrivCause>,
    words: &[&str],
    asked: &Confirming<'_>,
) -> Mem<Option<PrivCause>> {
    let carried = carried(alloc, words)?;
    cause_behind(alloc, cause, &carried, asked)
}

fn cause_behind(
    alloc: Global,
    cause: Option<PrivCause>,
    carried: &Privilege,
    asked: &Confirming<'_>,
) -> Mem<Option<PrivCause>> {
    let peers = [peer(alloc)?];
    let realm = Realm::new(alloc, &[])?;
    Ok(refuse_confirm(cause, carried, &peers, asked, &realm))
}

/// The privilege of `SECRET LOC USER`.
fn carried(alloc: Global, words: &[&str]) -> Mem<Privilege> {
    Ok(Privilege::From {
        secret: octets(alloc, words, 0)?,
        destination: location(alloc, words, 1)?,
        user: octets(alloc, words, 2)?,
    })
}
