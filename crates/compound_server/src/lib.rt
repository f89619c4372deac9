//! COMPOUND in a session, as every server answers it (RFC 8881 sections 2.10 and 16.2).
//!
//! A [`Server`] has files and clients; what a particular server adds is a [`Serving`] extension. [`Server::on_compound`]
//! answers a COMPOUND: `specs/Compounds.antt` has the rules of its first operation and of SEQUENCE, `specs/Clients.antt`
//! those of the operations that stand alone, `specs/Performing.antt` those of one operation behind SEQUENCE, and
//! `specs/Walking.antt` what several do. All memory is taken before anything changes. The contract to read first is that
//! of [`Server::on_compound`].
#![tactic(auto)]

mod client_end;
mod clients;
mod compounds;
mod evaluating;
mod performing;
mod preparing;
mod refusing;
mod replying;
mod server;
mod serving;
mod who;

pub use client_end::ClientEnd;
pub use clients::{CONFIRMED_R, USE_NON_PNFS};
pub use compounds::Reply;
pub use evaluating::Evaluated;
pub use preparing::{Prepared, PreparedOps, prepare};
pub use refusing::{TailRefusal, stands_alone, tail_refusal};
pub use server::Server;
pub use serving::Serving;
pub use who::Who;
