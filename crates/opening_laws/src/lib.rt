//! What machines owe the laws of a wire and of copies (`wire_model`) where one of them is opened anew, and behind that.
//!
//! There is no code here. A server that crashed has a higher opening then, no context, and keeps no reply; a caller has no mount
//! and awaits nothing. [`servers_open_anew`] and [`callers_open_anew`] say that such a step obeys their laws, and
//! [`crashes_lose_all_copies`] that a step obeys those of copies in which the destination crashes and every copy is lost. In its
//! next opening a destination numbers its copies from the first on, while a run counts on: so what is shown of it stands behind
//! the copies of the openings before (`specs/Behind.antt`). [`callers_stand_behind`], [`copies_stand_behind`] and
//! [`names_stand_behind`] say that what obeys the laws by its own numbers obeys them there. The contract to read first is that of
//! [`copies_stand_behind`].
#![tactic(auto)]

mod anew;
mod behind;

pub use anew::{callers_open_anew, crashes_keep_names, crashes_lose_all_copies, servers_open_anew};
pub use behind::{callers_stand_behind, copies_stand_behind, names_stand_behind};
