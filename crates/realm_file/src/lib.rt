//! The file of a realm: a line for each principal, with its name and its key. `specs/RealmText.antt` defines which realm
//! a text is.
#![tactic(auto)]

ghost use Rattle.std.specs.Prelude.{◌≡◌, IfOk, option_map};
ghost use Rattle.std.specs.Str.Lines.{lines};
ghost use Rattle.realm_file.specs.RealmText.{realm_of, realm_in, principal_of, is_name, key_of_digits, has_name};

use gss_mech::Realm;
use outcome::Mem;
use std::alloc::Global;
use wire_xdr::Octets;

/// No principal's name is longer.
const MOST_NAME: usize = 64;

/// The realm of a text. Each line is the name of a principal, of 1 to 64 bytes, a blank, and its key as 64 digits of base 16,
/// in either case. None where a line isn't so, a name stands twice, no line is there, or the text isn't UTF-8.
pub fn read_realm(alloc: Global, text: &[u8]) -> Mem<Option<Realm>>
    ensures { IfOk result (λ realm. realm ≡ realm_of text.now) }
{
    let Ok(text) = str::from_utf8(text) else {
        return Ok(None);
    };
    match principals(alloc, text)? {
        Some(keys) => Ok(Some(Realm::new(alloc, &keys)?)),
        None => Ok(None),
    }
}

/// The principals of a text's lines.
fn principals(alloc: Global, text: &str) -> Mem<Option<Vec<(Octets, [u8; 32])>>>
    ensures { IfOk result (λ keys. option_map (λ kept. kept.items) keys ≡ realm_in (lines text.now)) }
{
    let mut keys = Vec::new(alloc);
    for line in text.lines() {
        let Some(principal) = principal(alloc, line)? else {
            return Ok(None);
        };
        if is_listed(&keys, principal.0.as_slice()) {
            return Ok(None);
        }
        keys.push(principal)?;
    }
    if keys.is_empty() {
        return Ok(None);
    }
    Ok(Some(keys))
}

/// The name and the key of a line.
fn principal(alloc: Global, line: &str) -> Mem<Option<(Octets, [u8; 32])>>
    ensures { IfOk result (λ principal. principal ≡ principal_of line.now) }
{
    let Some((name, digits)) = line.split_once(' ') else {
        return Ok(None);
    };
    if !is_name(name) {
        return Ok(None);
    }
    let Some(key) = key_of_digits(digits) else {
        return Ok(None);
    };
    Ok(Some((Octets::from_slice(alloc, name.as_bytes())?, key)))
}

/// Whether a text may be a name.
fn is_name(text: &str) -> bool
    ensures { result ≡ is_name text.now }
{
    !text.is_empty() && text.len() <= MOST_NAME
}

/// The key that the digits are.
fn key_of_digits(digits: &str) -> Option<[u8; 32]>
    ensures { result ≡ key_of_digits digits.now }
{
    let mut key = [0; 32];
    if hex::decode_to_slice(digits.as_bytes(), &mut key).is_err() {
        return None;
    }
    Some(key)
}

/// Whether a name is among these.
fn is_listed(keys: &[(Octets, [u8; 32])], name: &[u8]) -> bool
    ensures { result ≡ has_name keys.now name.now }
{
    keys.iter().any(|(listed, _)| listed.as_slice() == name)
}
