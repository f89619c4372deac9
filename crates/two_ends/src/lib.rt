//! The two ends of a context, for tables of tests: a server with its contexts, a client that seals calls, and
//! calls that are made by hand. Every step takes its moment and answers what became of it; what a step needs and
//! lacks is an error.
#![tactic(auto)]

mod asked;
mod client;
mod server;
mod wrong;

pub use asked::Asked;
pub use client::Client;
pub use server::{Call, Init, Server, Told, drawn, realm};
pub use wrong::Wrong;
