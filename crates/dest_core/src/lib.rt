//! The destination of a copy between servers (RFC 7862 sections 4.2, 4.10, 15.2, 15.8, 15.9 and 16.1): what it adds to every
//! server.
//!
//! A [`Destination`] is the extension: the copies that it took with what works on them, and where it is found. It says which
//! privilege it takes, and answers COPY, OFFLOAD_STATUS and OFFLOAD_CANCEL by crate `dest_jobs`; jobs end with their clients
//! and with their leases. [`DestCore`] is the whole server; the contracts to read first are those of [`DestCore::on_record`]
//! and [`DestCore::work`], over `session_server`'s rules and `specs/Stepping.antt`, and then [`DestCore::landed`]'s. Its steps on
//! jobs are made by crate `dest_steps`.
#![tactic(auto)]

mod asking;
mod calling;
mod copying;
mod destination;
mod judging;
mod saying;
mod server;
mod serving;
mod steps;

pub use dest_jobs::{Book, Carried, Copies};
pub use destination::Destination;
pub use server::DestCore;
