ghost use Rattle.std.specs.Prelude.{◌≡◌, IfOk};
ghost use Rattle.outbox.specs.Outboxes.{no_outbox};

use crate::label::Label;
use crate::note::NoteList;
use nfs_base::{End, Seal};
use outcome::Mem;
use server_volume::CallList;
use std::alloc::Global;
use wire_xdr::{Items, Octets};

/// To whom a record goes.
#[derive(Clone, Copy, PartialEq, Eq)]
pub enum To {
    /// The other end of a connection, by its number.
    Conn(u32),

    /// The source, on the connection of a worker, by the worker's number.
    Source(u8),

    /// A server.
    Server(End),
}

/// A record that is sent.
#[derive(Drop)]
pub struct Outgoing {
    pub to: To,
    pub bytes: Octets,

    /// Under what it was sealed, where it was: denials and failed calls have no seal.
    pub seal: Option<Seal>,

    pub label: Label,
}

/// What a step gives.
#[derive(Drop)]
pub struct Outbox {
    /// The records that are sent, in order.
    pub sent: Items<Outgoing>,

    /// What is to be told, in order, before what is sent.
    pub notes: NoteList,

    /// Under what the record that was taken was admitted or accepted.
    pub accepted: Option<Seal>,

    /// The calls on the volume, in order.
    pub used: CallList,

    /// Whether a draw failed.
    pub undrawn: bool,
}

impl Outbox {
    /// Nothing is sent, told or done.
    pub fn new(alloc: Global) -> Mem<Outbox>
        ensures { IfOk result (λ out. out ≡ no_outbox) }
    {
        Ok(Outbox {
            sent: Items::new(alloc),
            notes: NoteList::new(alloc)?,
            accepted: None,
            used: CallList::new(alloc)?,
            undrawn: false,
        })
    }
}
