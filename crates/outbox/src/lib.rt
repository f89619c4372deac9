//! What a step of a source, a destination or a client gives besides its new state: the records that it sends, what is to
//! be told of it, and the calls that it made on its volume.
//!
//! The type to read first is [`Outbox`]. Nothing here makes a decision: the cores do, and whoever runs them carries
//! the records on and prints the notes. A step that sends or tells one thing takes the [`Room`] of its outbox first.
#![tactic(auto)]

mod label;
mod note;
mod outgoing;
mod room;

pub use label::{CallLabel, Label};
pub use note::{Dropped, MOST_NOTES, Note, NoteList};
pub use outgoing::{Outbox, Outgoing, To};
pub use room::Room;
pub use server_volume::{CallAnswer, CallList, Used, VolumeCall};
