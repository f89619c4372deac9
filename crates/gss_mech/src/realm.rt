ghost use Rattle.std.specs.Prelude.{◌≡◌, ◌≤◌, ◌∷◌, [], length, IsSome, IfOk};
ghost use Rattle.std.specs.Option.{option_copied};
ghost use Rattle.gss_mech.specs.Realm.{Keys, key_of, listed_key, opening_code, context_key, reply_code, reply_token, realm_mic, realm_derived, realm_started, realm_accepted, realm_finished};
ghost use Rattle.gss_mech.specs.RealmLaws.{realm_agreed, realm_in_bytes, realm_sized};

use crate::hmac::hmac_of_parts;
use crate::mechanism::{Accepted, Mechanism};
use crate::token::Opening;
use outcome::Mem;
use std::alloc::Global;
use std::marker::Model;
use wire_xdr::{Octets, Writer, read_all, write_all};

/// Principals and the key that each shares with every server. Contracts see the list. A principal is of
/// the realm where its name has at most 64 bytes and stands in the list, and its key is that of the first
/// entry with its name.
#[derive(Drop)]
pub struct Realm {
    keys: Vec<(Octets, [u8; 32])>,
}

impl Model for Realm {
    ghost use Rattle.gss_mech.specs.Realm.{Keys};

    ghost Value = { Keys };

    ghost view = { λ realm. realm.keys.items };
}

impl Realm {
    /// The realm of these principals and keys.
    pub fn new(alloc: Global, keys: &[(Octets, [u8; 32])]) -> Mem<Realm>
        ensures { IfOk result (λ realm. realm ≡ keys.now) }
    {
        let mut copy = Vec::new(alloc);
        for (name, key) in keys {
            copy.push((name.copy()?, *key))?;
        }
        Ok(Realm { keys: copy })
    }

    /// The key of a principal, where it is of the realm.
    fn key_of(&self, principal: &[u8]) -> Option<&[u8; 32]>
        ensures key { option_copied result ≡ key_of self.now principal.now }
        ensures short { IsSome result → length principal.now ≤ 64 }
    {
        if principal.len() > 64 {
            return None;
        }
        listed_key(self.keys.as_slice(), principal)
    }
}

/// The key of the first entry with the name.
fn listed_key<'a>(keys: &'a [(Octets, [u8; 32])], name: &[u8]) -> Option<&'a [u8; 32]>
    ensures { option_copied result ≡ listed_key keys.now name.now }
{
    for entry in keys {
        if entry.0.as_slice() == name {
            return Some(&entry.1);
        }
    }
    None
}

/// The code of a token that begins a context.
fn opening_code(key: &[u8; 32], principal: &[u8], nonce: &[u8; 32]) -> [u8; 32]
    ensures { result ≡ opening_code key.now principal.now nonce.now }
{
    hmac_of_parts(key, &[1], principal, nonce)
}

/// The key of a context between these nonces.
fn context_key(key: &[u8; 32], initiator: &[u8; 32], acceptor: &[u8]) -> [u8; 32]
    ensures { result ≡ context_key key.now initiator.now acceptor.now }
{
    hmac_of_parts(key, &[2], initiator, acceptor)
}

/// The code of the token that goes back.
fn reply_code(key: &[u8; 32]) -> [u8; 32]
    ensures { result ≡ reply_code key.now }
{
    hmac_of_parts(key, &[], &[], &[3])
}

/// The token that goes back.
fn reply_token(alloc: Global, key: &[u8; 32], nonce: &[u8; 32]) -> Mem<Octets>
    ensures { IfOk result (λ token. token ≡ reply_token key.now nonce.now) }
{
    let mut writer = Writer::new(alloc)?;
    writer.append(nonce)?;
    writer.append(&reply_code(key))?;
    Ok(writer.finish())
}

impl Mechanism for Realm {
    ghost mic_of = { realm_mic };

    ghost derived = { realm_derived };

    ghost started = { realm_started };

    ghost accepted = { realm_accepted };

    ghost finished = { realm_finished };

    #[tactic(auto, unfolding(crate::specs::Realm::realm_mic))]
    fn mic(&self, key: &[u8; 32], side: u8, bytes: &[u8]) -> [u8; 32] {
        hmac_of_parts(key, &[], &[side], bytes)
    }

    #[tactic(auto, unfolding(crate::specs::Realm::realm_derived))]
    fn derive(&self, key: &[u8; 32], kind: u8, handle: &[u8; 8]) -> [u8; 32] {
        hmac_of_parts(key, &[], &[kind], handle)
    }

    #[tactic(auto, unfolding(crate::specs::Realm::realm_started, crate::specs::Opening::opening))]
    fn start(&self, alloc: Global, principal: &[u8], nonce: &[u8; 32]) -> Mem<Option<Octets>> {
        let Some(key) = self.key_of(principal) else {
            return Ok(None);
        };
        let token = Opening {
            principal: Octets::from_slice(alloc, principal)?,
            nonce: *nonce,
            code: opening_code(key, principal, nonce),
        };
        Ok(Some(write_all(alloc, &token)?))
    }

    #[tactic(auto, unfolding(crate::specs::Realm::realm_accepted))]
    fn accept(&self, alloc: Global, token: &[u8], nonce: &[u8; 32]) -> Mem<Option<Accepted>> {
        let Some(opening) = read_all::<Opening>(alloc, token)?.ok() else {
            return Ok(None);
        };
        let Opening {
            principal,
            nonce: initiator,
            code,
        } = opening;
        let Some(shared) = self.key_of(principal.as_slice()) else {
            return Ok(None);
        };
        if code != opening_code(shared, principal.as_slice(), &initiator) {
            return Ok(None);
        }
        let key = context_key(shared, &initiator, nonce);
        let token = reply_token(alloc, &key, nonce)?;
        Ok(Some(Accepted {
            principal,
            key,
            token,
        }))
    }

    #[tactic(auto, unfolding(crate::specs::Realm::realm_finished))]
    fn finish(&self, principal: &[u8], nonce: &[u8; 32], token: &[u8]) -> Option<[u8; 32]> {
        let shared = self.key_of(principal)?;
        if token.len() != 64 {
            return None;
        }
        let (acceptor, code) = token.split_at(32);
        let key = context_key(shared, nonce, acceptor);
        if code != reply_code(&key).as_slice() {
            return None;
        }
        Some(key)
    }

    ghost agreed = { realm_agreed };

    ghost sized = { realm_sized };

    ghost in_bytes = { realm_in_bytes };
}
