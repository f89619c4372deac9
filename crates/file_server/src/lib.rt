//! The operations on files of an NFSv4.1 server, as every server does them in a compound (RFC 8881 sections 16.2 and 18).
//!
//! A [`Files`] has a volume, the opens, and what a particular server adds: an [`Extension`]. Its operations are
//! functions in `specs/`, one small definition a rule; `specs/Machine.antt` has the state, and what it means that an
//! operation in code is its model's. Room for all results is taken before the first operation, so none wants memory.
//! The contract to read first is [`Files::commit`]'s: the answer is the model's at each choice that agrees with the
//! volume's calls, and a crash at any moment leaves what `server_volume` says.
#![tactic(auto)]

mod attributes;
mod closing;
mod extension;
mod files;
mod handles;
mod held;
mod laws;
mod names;
mod opening;
mod placing;
mod progress;
mod reading;
mod writing;

pub use attributes::{ATTRS_SERVED, FileAttributes, TYPE_DIRECTORY, TYPE_FILE};
pub use extension::{Ask, Caller, Extension, Gate};
pub use files::Files;
pub use held::Held;
pub use laws::{files_are_named_in_decimal, room_is_left};
pub use opening::ACCESS_BITS;
pub use progress::{MOST_RESULT, Progress};
