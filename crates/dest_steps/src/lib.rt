//! The steps of a destination on its jobs (RFC 7862 sections 4.2, 4.10.1.2 and 16.1): a worker's turn, an answer of the source,
//! a link that failed, what goes out again, and a client's answer to a callback.
//!
//! A [`Copier`] is the jobs with what works on them and what is told of them. Each step has two parts: the first takes all
//! memory and says what is due, and the second does it, with at most one call on the volume. So without memory nothing
//! changes. The definitions of `specs/` are the parts' own; the contract to read first is that of [`take_turn`], which lands
//! chunks and commits files.
#![tactic(auto)]

mod around;
mod calls;
mod copier;
mod failing;
mod hearing;
mod landing;
mod replying;
mod telling;
mod ticking;
mod turning;
mod working;

pub use around::Here;
pub use copier::Copier;
pub use failing::{Failing, take_failing};
pub use hearing::take_hearing;
pub use landing::Landing;
pub use replying::{Effect, Heard, take_effect};
pub use telling::Telling;
pub use ticking::{Again, take_again};
pub use turning::{Committing, Turn};
pub use working::take_turn;
