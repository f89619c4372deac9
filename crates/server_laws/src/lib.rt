//! The laws of a wire that every server obeys in every step (`wire_model`'s `ServerLaws`), whatever a particular server adds.
//!
//! There is no code here. `specs/View.antt` says how a server looks from outside, `specs/Acts.antt` what it does in a
//! step, `specs/Steps.antt` what a step is. The steps are those of `session_server`'s `IsTurn`, which its public
//! call cites. [`contexts_stay`] and [`contexts_are_made`] are the laws on contexts, which `specs/ContextLaws.antt` states;
//! [`slots_are_kept`] those on slots, in `specs/SlotDuties.antt`; [`steps_are_lawful`] all that `ServerLaws` asks.
//! [`steps_carry_compounds_out`] is what other laws of a step begin with: `specs/Told.antt` says what a step tells.
#![tactic(auto)]

mod lawful;
mod laws;
mod slots;
mod told;

pub use lawful::{rests_are_lawful, steps_are_lawful};
pub use laws::{contexts_are_made, contexts_rest, contexts_stay};
pub use slots::{slots_are_kept, slots_rest};
pub use told::steps_carry_compounds_out;
