//! The mechanism under RPCSEC_GSS: two tokens make a context between an initiator and an acceptor, and the
//! context's key makes the codes under which calls and replies are sealed (RFC 2203 section 5).
//!
//! [`Mechanism`] is that as a trait: what its calls answer is said by ghost members, on which the layers
//! above rest. The contract to read first is [`tokens_agree`]: both ends come to one key, for every
//! mechanism. [`Realm`] is the mechanism of this project, a list of principals with a shared key each, whose
//! codes are HMAC (RFC 2104) over SHA-256; `specs/Hmac.antt` and `specs/Realm.antt` define them, and
//! [`hmac_sha256`] computes the first.
#![tactic(auto)]

mod hmac;
mod mechanism;
mod realm;
mod token;

pub use hmac::hmac_sha256;
pub use mechanism::{ACCEPTOR, Accepted, INITIATOR, Mechanism, tokens_agree};
pub use realm::Realm;
