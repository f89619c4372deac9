//! What a server keeps in each of its steps, and what it loses only where it is opened anew: its mechanism.
//!
//! There is no code here. By its own rules each of the two servers keeps its mechanism ([`OneMechanism`]), and so it does in every
//! step ([`mechanisms_stay`]).

mod following;
mod laws;

pub use following::OneMechanism;
pub use laws::mechanisms_stay;
