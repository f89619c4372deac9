//! The two servers of a run of three machines, at every moment of it, also where one of them stops and is opened anew.
//!
//! There is no code here. Both owe the laws of a server (`specs/Serving/Lawful.antt`): the source ([`sources_are_lawful`]), which calls
//! nobody ([`sources_call_nobody`]), and the destination ([`destinations_are_lawful_servers`]). A server may stop in an act, in whose
//! middle its disk crashes, or between two acts; it is opened anew then (`run_ends`). Such a step sends and tells nothing, and is one
//! crash to its volume: of the source this is part of what it owes, and of the destination it is said in `specs/Serving/Stopping.antt`.

mod servers;

pub use servers::{destinations_are_lawful_servers, sources_are_lawful, sources_call_nobody};
