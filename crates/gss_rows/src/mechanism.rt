//! The mechanism by itself.

use crate::told::{Places, bytes_at, tell, tell_hex, tell_where, turned};
use gss_mech::{ACCEPTOR, Accepted, INITIATOR, Mechanism, Realm, hmac_sha256};
use outcome::Mem;
use row_text::word;
use std::alloc::Global;
use wire_xdr::Octets;

/// `hmac KEY TEXT`: the code.
pub fn hmac(alloc: Global, words: &[&str], text: &mut String) -> Mem<()> {
    let (key, bytes) = (bytes_at(alloc, words, 1)?, bytes_at(alloc, words, 2)?);
    if key.len() > 64 {
        return tell(text, "a long key");
    }
    tell_hex(text, &hmac_sha256(&key, &bytes))
}

/// A realm of `user` alone, whose key repeats the byte 1.
fn realm_of_user(alloc: Global) -> Mem<Realm> {
    let user = Octets::from_slice(alloc, b"user")?;
    Realm::new(alloc, &[(user, [1; 32])])
}

/// `ends owned` and `ends borrowed`: what both ends of a context come to, of any mechanism.
pub fn ends(alloc: Global, words: &[&str], text: &mut String) -> Mem<()> {
    let realm = realm_of_user(alloc)?;
    match word(words, 1) {
        "owned" => both_ends(alloc, realm, text),
        _ => both_ends(alloc, &realm, text),
    }
}

/// Makes a context of `user` as both of its ends do, and tells each thing that is as it is to be.
fn both_ends<M: Mechanism>(alloc: Global, mech: M, text: &mut String) -> Mem<()> {
    match mech.start(alloc, b"user", &[7; 32])? {
        Some(token) => accepted(alloc, &mech, token.as_slice(), text),
        None => tell(text, "no principal"),
    }
}

fn accepted<M: Mechanism>(alloc: Global, mech: &M, token: &[u8], text: &mut String) -> Mem<()> {
    match mech.accept(alloc, token, &[8; 32])? {
        Some(taken) => {
            tell_taken(mech, &taken, text)?;
            tell_other(alloc, mech, text)?;
            apart(mech, &taken.key, text)
        }
        None => tell(text, "no token"),
    }
}

fn tell_other<M: Mechanism>(alloc: Global, mech: &M, text: &mut String) -> Mem<()> {
    let none = mech.start(alloc, b"dest", &[7; 32])?.is_none();
    tell_where(none, text, "none of another principal; ")
}

fn tell_taken<M: Mechanism>(mech: &M, taken: &Accepted, text: &mut String) -> Mem<()> {
    let same = taken.principal.as_slice() == b"user".as_slice();
    tell_where(same, text, "its principal; ")?;
    let back = taken.token.as_slice();
    let same = mech.finish(b"user", &[7; 32], back) == Some(taken.key);
    tell_where(same, text, "one key; ")?;
    let none = mech.finish(b"user", &[9; 32], back).is_none();
    tell_where(none, text, "none by another nonce; ")
}

/// That codes of the two sides differ, and keys of two kinds.
fn apart<M: Mechanism>(mech: &M, key: &[u8; 32], text: &mut String) -> Mem<()> {
    let two = mech.mic(key, INITIATOR, b"text") != mech.mic(key, ACCEPTOR, b"text");
    tell_where(two, text, "two sides; ")?;
    let two = mech.derive(key, 4, &[0; 8]) != mech.derive(key, 5, &[0; 8]);
    tell_where(two, text, "two kinds; ")
}

/// `tokens TOKEN`: whether a token is taken with each of its bytes changed, and with one byte behind its end; at the last
/// place, whether it is taken as it stands.
pub fn tokens(alloc: Global, words: &[&str], text: &mut String) -> Mem<()> {
    let realm = realm_of_user(alloc)?;
    let token = bytes_at(alloc, words, 1)?;
    changed(alloc, &realm, &token, text)
}

fn changed(alloc: Global, realm: &Realm, token: &[u8], text: &mut String) -> Mem<()> {
    let mut places = Places::new(alloc);
    for at in 0..=token.len() {
        let answer = taken(alloc, realm, turned(alloc, token, at, 1)?)?;
        places.tell(text, at, answer)?;
    }
    let answer = taken(alloc, realm, longer(alloc, token)?)?;
    places.tell(text, token.len().saturating_add(1), answer)
}

fn longer(alloc: Global, token: &[u8]) -> Mem<Vec<u8>> {
    let mut bytes = Vec::from_slice(alloc, token)?;
    bytes.push(0)?;
    Ok(bytes)
}

fn taken(alloc: Global, realm: &Realm, token: Vec<u8>) -> Mem<String> {
    let is_taken = realm.accept(alloc, &token, &[0; 32])?.is_some();
    let answer = if is_taken { "taken" } else { "refused" };
    Ok(String::from_str(alloc, answer)?)
}
