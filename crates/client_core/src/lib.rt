//! The client of copies between servers (RFC 7862 section 4): setups at both servers, writes and commits, up to fifteen
//! copies, and callbacks.
//!
//! A [`Client`] is two [`client_site::Site`]s, its copies, its queues of writes and commits, and the contexts under which
//! the servers call back. Each of its calls is one step: it works on a copy of these, a [`client_steps::Course`], and puts
//! it in place at the end, so that without memory, and where a draw fails, all is as before. The contract to read first is
//! that of [`Client::tick`], then those of [`Client::begin_copy`] and [`Client::on_record`]. `specs/Callbacks.antt` says
//! what a callback does.
#![tactic(auto)]

mod backs;
mod callback;
mod calls;
mod client;
mod commands;
mod endings;
mod labels;
mod records;

pub use client::{Client, MOST_STEPS};
