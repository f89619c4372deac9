ghost use Rattle.std.specs.Prelude.{◌≡◌};
ghost use Rattle.outbox.specs.Outboxes.{one_reply, silence, undrawn_outbox};

use crate::note::{Note, NoteList};
use crate::outgoing::{Outbox, Outgoing};
use nfs_base::Seal;
use outcome::Mem;
use server_volume::CallList;
use std::alloc::Global;
use std::marker::Model;
use wire_xdr::Items;

/// The memory of an outbox with one record, or one note. A step takes it before anything changes, and then makes of it
/// what it gives, which takes none.
#[derive(Drop)]
pub struct Room {
    sent: Vec<Outgoing>,
    notes: NoteList,
    used: CallList,
}

impl Model for Room {
    ghost use Rattle.std.specs.Prelude.{vec_capacity};
    ghost use Rattle.outbox.specs.Room.{IsRoom};

    ghost Value = { Unit {0} };

    ghost view = { λ r. tt };

    ghost invariant = { λ r. IsRoom r.sent.items (vec_capacity r.sent) r.notes r.used };
}

impl Room {
    /// Takes the memory: for one record, for what is told, and for the calls on the volume.
    pub fn new(alloc: Global) -> Mem<Room> {
        Ok(Room {
            sent: Vec::with_capacity(alloc, 1)?,
            notes: NoteList::new(alloc)?,
            used: CallList::new(alloc)?,
        })
    }

    /// The outbox of a step that tells this and sends nothing.
    pub fn silence(self, note: Note) -> Outbox
        ensures { result ≡ silence note }
    {
        let Room {
            sent,
            mut notes,
            used,
        } = self;
        notes.push(note);
        Outbox {
            sent: Items::from_vec(sent),
            notes,
            accepted: None,
            used,
            undrawn: false,
        }
    }

    /// The outbox of a step that sends this record alone, and took one that was accepted under this seal, if under one.
    pub fn one_reply(self, accepted: Option<Seal>, reply: Outgoing) -> Outbox
        ensures { result ≡ one_reply accepted reply }
    {
        let Room {
            mut sent,
            notes,
            used,
        } = self;
        sent.push(reply).unwrap();
        Outbox {
            sent: Items::from_vec(sent),
            notes,
            accepted,
            used,
            undrawn: false,
        }
    }

    /// The outbox of a step whose draw failed.
    pub fn undrawn(self) -> Outbox
        ensures { result ≡ undrawn_outbox }
    {
        let Room { sent, notes, used } = self;
        Outbox {
            sent: Items::from_vec(sent),
            notes,
            accepted: None,
            used,
            undrawn: true,
        }
    }
}
