//! Want of memory, the words in which every crate says why a call failed, and faults that are planned.
//!
//! A call that allocates answers [`Mem`]. A call that reaches outside the program counts its faults,
//! and a fault is answered only where that count rose: `specs/Causes.antt` has the words for this, and
//! the contracts of all crates cite them. The law to read first is `causes::causes_join`. An object in
//! memory that stands for one outside fails at the calls that its [`Planned`] names.
#![tactic(auto)]

mod causes;
mod memory;
mod planned;

pub use causes::causes_join;
pub use memory::{Mem, NoMemory};
pub use planned::{Planned, nothing_planned};
