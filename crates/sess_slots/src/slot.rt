ghost use Rattle.std.specs.Prelude.{◌≡◌, ◌+◌, ◌<◌, ◌≤◌, IfOk, IfSome, length, replicate, option_map, option_copied};
ghost use Rattle.nfs_base.specs.declared.limits.TheConstants.{SLOTS};
ghost use Rattle.sess_slots.specs.Slots.{next_number, fresh_slot, begin_at, slot_at, slots_after};

use crate::{Begin, Place};
use nfs_base::SLOTS;
use outcome::Mem;
use std::alloc::Global;
use std::marker::Model;
use std::mem;
use wire_xdr::Octets;

/// How many bytes the reply to a COMPOUND has at most: behind its head and under its seal it is a record of no more
/// than 73,728.
pub const MOST_REPLY: usize = 73_100;

/// A reply, kept for retries from one root context.
#[derive(Drop)]
pub struct Kept {
    pub root: u32,
    pub reply: Octets,
}

/// A slot: the last number that was executed on it, 0 at first, and the reply to that.
#[derive(Drop)]
pub struct Slot {
    pub last: u32,
    pub kept: Option<Kept>,
}

impl Slot {
    /// What a number means on this slot, which is that of a place, under a root context.
    pub fn begin(&self, place: Place, number: u32, root: u32) -> Begin
        ensures { result ≡ begin_at self.now number root place }
    {
        if number == next_number(self.last) {
            return Begin::New(place);
        }
        if number != self.last {
            return Begin::Misordered;
        }
        match &self.kept {
            None => Begin::Misordered,
            Some(kept) if kept.root == root => Begin::Replay(place),
            Some(_) => Begin::FalseRetry,
        }
    }
}

/// The number that follows a number.
pub(crate) fn next_number(number: u32) -> u32
    ensures { result ≡ next_number number }
{
    number.wrapping_add(1)
}

/// The sixteen slots of a session.
#[derive(Drop)]
pub struct Slots {
    slots: Vec<Slot>,
}

impl Model for Slots {
    ghost use Rattle.std.specs.Prelude.{List};
    ghost use Rattle.sess_slots.specs.declared.slot.Slot.{Slot};
    ghost use Rattle.sess_slots.specs.Short.{AreSlots};

    ghost Value = { List Slot };

    ghost view = { λ s. s.slots.items };

    ghost invariant = { λ s. AreSlots s.slots.items };
}

impl Slots {
    /// Sixteen slots, on which no number was taken.
    #[tactic(auto, using(crate::proofs::Lists::replicate_more, std::proofs::lemmas::Grind::common_steps))]
    pub(crate) fn new(alloc: Global) -> Mem<Slots>
        ensures { IfOk result (λ slots. slots ≡ replicate SLOTS fresh_slot) }
    {
        let mut slots = Vec::with_capacity(alloc, SLOTS as usize)?;
        for _made in 0..SLOTS {
            slots.push(Slot {
                last: 0,
                kept: None,
            })?;
        }
        Ok(Slots { slots })
    }

    /// What a number means on the slot of a place, under a root context.
    pub(crate) fn begin(&self, place: Place, number: u32, root: u32) -> Begin
        requires { place.slot < SLOTS }
        ensures { result ≡ begin_at (slot_at self.now place.slot) number root place }
    {
        self.slots[place.slot as usize].begin(place, number, root)
    }

    /// Moves the slot's number, and keeps the reply with its root.
    pub(crate) fn finish(&mut self, slot: u32, root: u32, reply: Octets)
        requires slot { slot < SLOTS }
        requires short { length reply ≤ MOST_REPLY }
        ensures { self.new ≡ slots_after self.old slot root reply }
    {
        let slot = &mut self.slots[slot as usize];
        slot.last = next_number(slot.last);
        slot.kept = Some(Kept { root, reply });
    }

    /// The reply kept at a slot, lent.
    pub(crate) fn kept(&self, slot: u32) -> Option<&Octets>
        requires { slot < SLOTS }
        ensures kept { option_copied result ≡ option_map (λ k. k.reply) (slot_at self.now slot).kept }
        ensures short { IfSome result (λ reply. length reply.now ≤ MOST_REPLY) }
    {
        match &self.slots[slot as usize].kept {
            None => None,
            Some(kept) => Some(&kept.reply),
        }
    }
}
