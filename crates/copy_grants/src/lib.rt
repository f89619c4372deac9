//! What a source has granted by COPY_NOTIFY, and the one table that permits a READ of another server under a
//! grant (RFC 7862 sections 4.8, 4.10.1.3 and 15.3).
//!
//! [`Grants`] keeps each grant for the file, the destination, the user and the secret that it was given for.
//! Contracts see a plain list (`specs/Grants.antt`). The contract to read first is that of [`Grants::permit`],
//! whose eight rows stand in `specs/Permits.antt`; the law in [`laws`] says of any list of calls that a number
//! is given once.
#![tactic(auto)]

mod ask;
mod grant;
mod grants;
pub mod laws;

pub use ask::{Ask, Permit, status_of};
pub use copy_privs::{Cause, PrivCause};
pub use grant::Grant;
pub use grants::{Full, Grants};
