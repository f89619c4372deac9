//! The copies of a client.

ghost use Rattle.std.specs.Prelude.{◌≡◌, ◌<◌, IfOk, None, option_copied, position, replicate};
ghost use Rattle.client_copies.specs.Table as spec;
ghost use Rattle.client_copies.specs.declared.table.TheConstants.{MOST_COPIES};

use crate::{ClientCopy, Event, HeldOffload, HeldOffloads, Said};
use copy_ops::OffloadEnd;
use nfs_base::{CopySpec, SLOTS, StateId};
use outcome::Mem;
use std::alloc::Global;
use std::marker::Model;

/// Copies are numbered below this. Each goes on in the slot of its number, and slot 0 is for writes and commits.
pub const MOST_COPIES: u32 = SLOTS;

/// What became of a CB_OFFLOAD.
#[derive(Clone, Copy)]
pub enum Named {
    /// Its stateid is that of the copy with this number, of which this is told.
    Copy(u32, Said),

    /// No copy has its stateid. It is held.
    Held,

    /// No copy has its stateid, and 16 are held already.
    Full,
}

/// The copies of a client by their numbers, and the CB_OFFLOADs whose stateids no copy has yet.
#[derive(Drop)]
pub struct CopyTable {
    copies: [Option<ClientCopy>; MOST_COPIES as usize],
    held: HeldOffloads,
}

impl Model for CopyTable {
    ghost use Rattle.std.specs.Prelude.{◌≡◌, length};
    ghost use Rattle.client_copies.specs.Table.{Copies};
    ghost use Rattle.client_copies.specs.declared.table.TheConstants.{MOST_COPIES};

    ghost Value = { Copies };

    ghost view = { λ t. record { copies = t.copies; held = t.held } };

    ghost invariant = { λ t. length t.copies ≡ MOST_COPIES };
}

impl CopyTable {
    /// No copy was begun.
    pub fn new(alloc: Global) -> Mem<CopyTable>
        ensures { IfOk result (λ t. t ≡ spec.no_copies) }
    {
        Ok(CopyTable {
            copies: no_copies(),
            held: HeldOffloads::new(alloc)?,
        })
    }

    /// The same copies and the same that is held once more.
    pub fn copy_all(&self, alloc: Global) -> Mem<CopyTable>
        ensures { IfOk result (λ t. t ≡ self.now) }
    {
        let mut copies = no_copies();
        copies.copy_from_slice(&self.copies);
        Ok(CopyTable {
            copies,
            held: self.held.copy(alloc)?,
        })
    }

    /// Begins a copy under a number, with its drawn secret.
    pub fn begin(&mut self, number: u32, copy: CopySpec, secret: [u8; 32])
        requires { number < MOST_COPIES }
        ensures { self.new ≡ spec.with_begun number copy secret self.old }
    {
        self.copies[number as usize] = Some(ClientCopy::new(copy, secret));
    }

    /// The copy with a number.
    pub fn copy(&self, number: u32) -> Option<&ClientCopy>
        requires { number < MOST_COPIES }
        ensures { option_copied result ≡ spec.copy_at number self.now }
    {
        self.copies[number as usize].as_ref()
    }

    /// Something happens to a copy: what is told of it. The other copies stay as they are.
    pub fn on(&mut self, number: u32, event: Event) -> Said
        requires { number < MOST_COPIES }
        ensures said { result ≡ (spec.told_at number event self.old).0 }
        ensures after { self.new ≡ (spec.told_at number event self.old).1 }
    {
        on_copy(&mut self.copies[number as usize], event)
    }

    /// COPY of a copy was answered OK, with the stateid of the copy; it was last sent at `sent_at`. What a CB_OFFLOAD that
    /// was held says of it is told too, and what was held for the stateid is held no more.
    pub fn accept(&mut self, number: u32, id: StateId, sent_at: u64) -> Said
        requires { number < MOST_COPIES }
        ensures said { result ≡ (spec.accepted_at number id sent_at self.old).0 }
        ensures after { self.new ≡ (spec.accepted_at number id sent_at self.old).1 }
    {
        let said = self.on(number, Event::Accepted { id, sent_at });
        match self.held.release(&id) {
            None => said,
            Some(end) => joined(said, self.on(number, Event::Offloaded(end))),
        }
    }

    /// A CB_OFFLOAD comes: the copy with its stateid is told, or it is held, at most 16 of them. It takes no memory.
    pub fn offload(&mut self, id: StateId, end: OffloadEnd) -> Named
        ensures told { result ≡ (spec.offloaded_in id end self.old).0 }
        ensures after { self.new ≡ (spec.offloaded_in id end self.old).1 }
    {
        match named_by(&self.copies, &id) {
            Some(number) => {
                let said = on_copy(&mut self.copies[number], Event::Offloaded(end));
                Named::Copy(number as u32, said)
            }
            None => {
                if self.held.hold(HeldOffload { id, end }) {
                    Named::Held
                } else {
                    Named::Full
                }
            }
        }
    }
}

fn no_copies() -> [Option<ClientCopy>; MOST_COPIES as usize]
    ensures { result ≡ replicate MOST_COPIES None }
{
    [
        None, None, None, None, None, None, None, None, None, None, None, None, None, None, None,
        None,
    ]
}

fn on_copy(copy: &mut Option<ClientCopy>, event: Event) -> Said
    ensures said { result ≡ spec.said_of event copy.old }
    ensures after { copy.new ≡ spec.copy_after event copy.old }
{
    match copy {
        None => Said::Nothing,
        Some(copy) => copy.on(event),
    }
}

/// The number of the copy with a stateid.
fn named_by(copies: &[Option<ClientCopy>], id: &StateId) -> Option<usize>
    ensures { result ≡ position (spec.names id.now) copies.now }
{
    copies.iter().position(|copy| names(copy, id))
}

fn names(copy: &Option<ClientCopy>, id: &StateId) -> bool
    ensures { result ≡ spec.names id.now copy.now }
{
    match copy {
        None => false,
        Some(copy) => copy.is_called(id),
    }
}

/// What is told of a copy in two events, one after the other.
fn joined(first: Said, second: Said) -> Said
    ensures { result ≡ spec.joined first second }
{
    match (first, second) {
        (Said::One(first), Said::One(second)) => Said::Two(first, second),
        (Said::One(first), Said::Nothing) => Said::One(first),
        (Said::One(first), Said::Two(second, _)) => Said::Two(first, second),
        (Said::Nothing, second) => second,
        (Said::Two(first, second), _) => Said::Two(first, second),
    }
}
