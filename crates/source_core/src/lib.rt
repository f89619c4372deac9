//! The source of a copy between servers (RFC 7862 sections 4.8 and 4.10, 15.3 and 15.8): what it adds to every server.
//!
//! A [`Source`] is the extension: what it granted by COPY_NOTIFY, the servers that it knows, and where it is found. It
//! says which privileges it takes, what a context that confirms a copy may do, and whether a READ under a grant is
//! permitted. [`SourceCore`] is the whole server; the contract to read first is that of [`SourceCore::on_record`], whose
//! rules are the definitions of `session_server` with those of `specs/`. The decisions themselves are those of crates
//! `copy_privs` and `copy_grants`; the laws in [`laws`] say what they come to.
#![tactic(auto)]

mod asking;
mod calling;
mod carried;
mod granting;
mod judging;
pub mod laws;
mod own_location;
mod server;
mod serving;
mod source;

pub use carried::Carried;
pub use own_location::{MOST_LOCATION, OwnLocation};
pub use server::SourceCore;
pub use serving::GrantStrings;
pub use source::Source;
