//! The servers whose machines stop: each is opened anew on what the crash left of its disk.
//!
//! The contracts to read first are those of [`reopen_source`] and [`reopen_dest`]. By [`servers_open_anew`] they can be called
//! wherever the machine hadn't stopped before the server's step, what they leave of the volume is what such a stop leaves, and
//! but for a disk that fails they don't refuse.

mod laws;
mod reopening;

pub use laws::servers_open_anew;
pub use reopening::{kept_by, reopen_dest, reopen_source};
