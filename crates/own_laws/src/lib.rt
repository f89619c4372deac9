//! How what a particular server adds goes on, in every step of the server.
//!
//! There is no code here. `specs/Following.antt` says what it is to go along a relation; one along which a server's extension goes
//! in each of its own rules is [`Following`], and then it does in every step ([`own_parts_go_on`]), whatever the record is. What its
//! own operations give out one by one it gives out few of in a step ([`own_parts_give_few`]). Of the operations on files, those that
//! are counted as no call on the volume make none ([`quiet_operations_make_no_call`]).
#![tactic(auto)]

mod following;
mod laws;

pub use following::Following;
pub use laws::{own_parts_give_few, own_parts_go_on, quiet_operations_make_no_call};
