//! The machines of a run: a source, a destination and a client, each by its own definitions, and the world in which a run begins.
//!
//! There is no code here but for who the ends are and where the servers are found ([`user`], [`source_place`] and the others), which is
//! the same in every run, and for servers that are opened anew. `specs/Ends.antt` says what each machine may do in an act, and how a
//! server goes on that stopped in one; `specs/Opening.antt` what a server is that was just opened, and `specs/First.antt` the first world
//! of a schedule. The small steps, the lines and the histories of such machines are those of `wire_machine`. By module:
//!
//! - [`mechanisms`]: a server goes by one mechanism as long as it isn't opened anew;
//! - [`stops`]: a server whose machine stopped is opened anew on what the crash left of its disk.
#![tactic(auto)]

pub mod mechanisms;
mod setting;
pub mod stops;

pub use setting::{
    DEST_TAG, SOURCE_TAG, dest_name, dest_place, dest_source, source_peers, source_place, user,
};
