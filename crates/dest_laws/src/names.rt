//! What a destination tells of its copies: their names, and its reports of them (`wire_model`'s `NameLaws`; RFC 7862 sections
//! 15.2, 15.9 and 16.1).
//!
//! There is no code here. What a destination holds of its reports is right from its opening on (`specs/Names/Holding.antt`;
//! [`reports_begin_right`]), and stays so: where a record comes on a connection ([`answers_are_right`]), and in every other step
//! ([`reports_stay_right`]). So it obeys the laws of names and reports, and what is marked stable is safe ([`names_are_lawful`]).
//! A callback is read as it was told ([`callbacks_are_read`]), what goes out tells what is right ([`steps_tell_right`]), and in a
//! step that takes a record nothing new is told ([`records_tell_nothing`]). Copies keep their names ([`names_stay`]).

mod answering;
mod following;
mod holding;
mod naming;
mod reading;
mod records;
mod sessions;
mod turning;
mod whole;

pub use answering::answers_are_right;
pub use following::KeepsCallbacks;
pub use holding::{reports_begin_right, reports_stay_right};
pub use naming::names_stay;
pub use reading::callbacks_are_read;
pub use records::records_tell_nothing;
pub use sessions::back_channels_fit;
pub use turning::steps_tell_right;
pub use whole::names_are_lawful;
