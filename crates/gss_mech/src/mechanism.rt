ghost use Rattle.std.specs.Prelude.{◌≡◌, ℕ, List, IfOk};
ghost use Rattle.std.specs.declared.option.Option.{Option};
ghost use Rattle.gss_mech.specs.declared.mechanism.Accepted.{Accepted};
ghost use Rattle.gss_mech.specs.Tokens.{IsAgreed, IsInBytes, IsSized, along, bytes_along};

use outcome::Mem;
use std::alloc::Global;
use wire_xdr::Octets;

/// The side of the codes that an initiator makes.
pub const INITIATOR: u8 = 0;

/// The side of the codes that an acceptor makes.
pub const ACCEPTOR: u8 = 1;

/// What an acceptor makes of a token: who sent it, the key of the new context, and the token that goes
/// back.
#[derive(Drop)]
pub struct Accepted {
    pub principal: Octets,
    pub key: [u8; 32],
    pub token: Octets,
}

/// A security mechanism, as RPCSEC_GSS uses it (RFC 2203 section 5). Nothing is claimed of the strength of
/// its codes.
pub trait Mechanism: Drop {
    // The code of bytes under a key, made by a side, the initiator or the acceptor.
    ghost mic_of: { List ℕ → ℕ → List ℕ → List ℕ };

    // The key of a kind that is derived from a key for a handle.
    ghost derived: { List ℕ → ℕ → List ℕ → List ℕ };

    // The token by which a principal begins, with its nonce, where it is of the realm.
    ghost started: { Self → List ℕ → List ℕ → Option (List ℕ) };

    // What an acceptor makes of a token, with its own nonce, where the token is one of the realm.
    ghost accepted: { Self → List ℕ → List ℕ → Option Accepted };

    // The key that the initiator comes to: from its principal, its nonce and the token that came back,
    // where this is one of the realm for them.
    ghost finished: { Self → List ℕ → List ℕ → List ℕ → Option (List ℕ) };

    /// The code of bytes under a key that a side makes, [`INITIATOR`] or [`ACCEPTOR`]. It takes no memory.
    fn mic(&self, key: &[u8; 32], side: u8, bytes: &[u8]) -> [u8; 32]
        ensures { result ≡ mic_of key.now side bytes.now };

    /// The key of this kind that is derived from a key for a handle. It takes no memory.
    fn derive(&self, key: &[u8; 32], kind: u8, handle: &[u8; 8]) -> [u8; 32]
        ensures { result ≡ derived key.now kind handle.now };

    /// The token by which a principal begins a context. None exactly where it isn't of the realm.
    fn start(&self, alloc: Global, principal: &[u8], nonce: &[u8; 32]) -> Mem<Option<Octets>>
        ensures { IfOk result (λ token. token ≡ started self.now principal.now nonce.now) };

    /// Takes a token that begins a context. None exactly where it isn't one of the realm.
    fn accept(&self, alloc: Global, token: &[u8], nonce: &[u8; 32]) -> Mem<Option<Accepted>>
        ensures { IfOk result (λ taken. taken ≡ accepted self.now token.now nonce.now) };

    /// Takes the token that came back, with the nonce of `start`, and gives the context's key. None exactly
    /// where the token isn't one of the realm for these arguments. It takes no memory.
    fn finish(&self, principal: &[u8], nonce: &[u8; 32], token: &[u8]) -> Option<[u8; 32]>
        ensures { result ≡ finished self.now principal.now nonce.now token.now };

    // Both ends come to one key, and whether a token is taken doesn't depend on the acceptor's nonce.
    ghost agreed: { IsAgreed started accepted finished };

    // Every code has 32 bytes.
    ghost sized: { IsSized mic_of };

    // Codes and tokens are bytes.
    ghost in_bytes: { IsInBytes mic_of started };
}

/// Of every mechanism: what a principal of the realm starts is accepted as its own, and what goes back
/// finishes with the same key; whether a token is accepted doesn't depend on the acceptor's nonce; and no
/// token is longer than 4,096 bytes. Every code has 32 bytes, and codes and tokens are bytes.
pub fn tokens_agree<M: Mechanism>()
    ensures tokens { IsAgreed M.started M.accepted M.finished }
    ensures codes { IsSized M.mic_of }
    ensures in_bytes { IsInBytes M.mic_of M.started }
{}

impl<M: Mechanism> Mechanism for &M {
    ghost mic_of = { M.mic_of };

    ghost derived = { M.derived };

    ghost started = { λ mech. M.started mech.now };

    ghost accepted = { λ mech. M.accepted mech.now };

    ghost finished = { λ mech. M.finished mech.now };

    fn mic(&self, key: &[u8; 32], side: u8, bytes: &[u8]) -> [u8; 32] {
        (**self).mic(key, side, bytes)
    }

    fn derive(&self, key: &[u8; 32], kind: u8, handle: &[u8; 8]) -> [u8; 32] {
        (**self).derive(key, kind, handle)
    }

    fn start(&self, alloc: Global, principal: &[u8], nonce: &[u8; 32]) -> Mem<Option<Octets>> {
        (**self).start(alloc, principal, nonce)
    }

    fn accept(&self, alloc: Global, token: &[u8], nonce: &[u8; 32]) -> Mem<Option<Accepted>> {
        (**self).accept(alloc, token, nonce)
    }

    fn finish(&self, principal: &[u8], nonce: &[u8; 32], token: &[u8]) -> Option<[u8; 32]> {
        (**self).finish(principal, nonce, token)
    }

    ghost agreed = { along (λ mech. mech.now) M.agreed };

    ghost sized = { M.sized };

    ghost in_bytes = { bytes_along (λ mech. mech.now) M.in_bytes };
}
