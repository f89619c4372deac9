//! A caller's mount of one NFSv4.2 server: how far it is set up, what is awaited of it, and under which contexts (RFC
//! 8881 section 2.10, RFC 2203, RFC 7861).
//!
//! A [`Mount`] has sixteen places, at each of which at most one call awaits its answer; a call in a slot awaits it at the
//! place of its slot. What goes out gets its xid from the machine above, which counts for all its servers. Each call of
//! [`Mount`] is one equation with a function of `specs/`: `Sending.antt` has what goes out, `Taking.antt` what a record
//! does, `Falling.antt` how a mount begins again. The contract to read first is that of [`Mount::take`]. Without memory
//! all is as before, xids and numbers included.
#![tactic(auto)]

mod calling;
mod contexts;
mod copying;
mod falling;
mod finding;
mod laws;
mod machine;
mod places;
mod setting_up;
mod state;
mod taking;

pub use calling::{Ending, Under};
pub use laws::{answers_are_taken_once, mounts_begin_again, what_goes_out_is_counted};
pub use machine::{Mount, SendAt, Sent};
pub use state::PLACES;
pub use taking::{Heard, Told};
