//! The structured privileges under which a copy between servers is allowed (RFC 7862 section 4.10, carried by
//! contexts of RFC 7861).
//!
//! A [`Privilege`] is read and written by its name: `specs/Forms.antt` is the table of names and forms.
//! [`confirm_matches`] tells whether a code confirms a secret. What a server decides in CREATE is a definition
//! over plain lists, `specs/Create.antt`: [`refuse_from`], [`refuse_to`] and [`refuse_confirm`] compute it,
//! and the source and the destination cite it. The contract to read first is that of [`read_privilege`].
#![tactic(auto)]

mod confirm;
mod create;
mod fault;
mod peer;
mod privilege;

pub use confirm::confirm_matches;
pub use create::{Confirming, refuse_confirm, refuse_from, refuse_to};
pub use fault::PrivFault;
pub use nfs_base::{Cause, PrivCause};
pub use peer::{Peer, is_peer, location_of};
pub use privilege::{Privilege, read_privilege, write_privilege};
