//! What a destination owes for the lengths of its copies and for the chunks that land or are held (RFC 7862 section 15.2).
//!
//! There is no code here. `specs/Landings/Posted.antt` says what a worker's post says of the call whose answer its mount awaits,
//! `specs/Landings/Orderly.antt` what holds between steps and what a step owes. By [`workers_ask_by_plans`] the first stays so in every
//! step; the law to read first is [`landings_are_due`]. What it wants of the mount a fit mount has, and a run of moves that can be
//! spelled keeps ([`what_is_awaited_is_spelled`], [`moves_keep_calls_spelled`]). By [`workers_call_once`] a worker makes one call at
//! most on the volume, and by [`volumes_go_on`] that is one effect that is allowed. In a moment of rest nothing is due
//! ([`rests_owe_nothing`]).

mod asked;
mod calling;
mod following;
mod lands;
mod resting;
mod spelled;
mod volumes;

pub use asked::workers_ask_by_plans;
pub use calling::workers_call_once;
pub use following::KeepsWork;
pub use lands::landings_are_due;
pub use resting::rests_owe_nothing;
pub use spelled::{moves_keep_calls_spelled, what_is_awaited_is_spelled};
pub use volumes::volumes_go_on;
