//! What a step of a client does (RFC 7862 section 4): over its servers, its copies, and its queues of writes and commits.
//!
//! A step works on a [`Course`]: a copy of what the client has, a [`Desk`], with the plans of its queues. What was done goes
//! on by what waits ([`Course::go_on`], `specs/Acting.antt`); what an answer comes to is one word, a [`Deed`]
//! (`specs/Answers.antt`), and then what that does (`specs/Replies.antt`). Leave of a server is taken call by call
//! (`specs/Parting.antt`). Each call is one equation with its definition
//! where it has memory; else the course is given up. The contract to read first is that of [`Course::on_reply`].
#![tactic(auto)]

mod acting;
mod calling;
mod commands;
mod copy_steps;
mod deeds;
mod desk;
mod parting;
mod replies;
mod setting;

pub use acting::{Course, Queues};
pub use copy_steps::Openings;
pub use deeds::Deed;
pub use desk::Desk;
pub use parting::Parting;
pub use setting::Setting;
