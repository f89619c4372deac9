//! The system's time, and what is drawn from its random bytes.
//!
//! Both are a few lines over std. They are proved to be a [`streams::Clock`] and [`streams::Draws`]; what the system gives is its own.
#![tactic(auto)]

mod clock;
mod draws;

pub use clock::SystemClock;
pub use draws::ReadDraws;
