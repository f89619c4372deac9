//! A client whose numbers are below their bounds, and whose names, handles and secrets are bytes within their limits, stays so.
//!
//! There is no code here. `specs/Bounds/Known.antt` says what is fit, and `specs/Bounds/Ways.antt` what a mechanism and what is drawn
//! owe; the other files there say of each part of a step that it keeps it. The law to read first is [`clients_stay_fit`].

mod beginning;
mod staying;

pub use beginning::{clients_begin_fit, clients_have_fit_ways};
pub use staying::clients_stay_fit;
