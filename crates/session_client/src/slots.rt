//! The numbers of calls in the slots of a session.

ghost use Rattle.std.specs.Prelude.{◌≡◌, ◌<◌, ◌^◌, ◌-◌, slice_index};
ghost use Rattle.nfs_base.specs.declared.limits.TheConstants.{SLOTS};
ghost use Rattle.session_client.specs.Slots.{fresh_numbers, after_new};

use nfs_base::SLOTS;
use std::marker::Model;

/// The number that the next new call has in each slot of a session (RFC 8881 section 2.10.6.1). Contracts see the
/// numbers by slot.
#[derive(Drop)]
pub struct SlotNumbers {
    next: [u32; SLOTS as usize],
}

impl Model for SlotNumbers {
    ghost use Rattle.std.specs.Prelude.{◌≡◌, ℕ, List, length};
    ghost use Rattle.nfs_base.specs.declared.limits.TheConstants.{SLOTS};

    ghost Value = { List ℕ };

    ghost view = { λ n. n.next };

    ghost invariant = { λ n. length n.next ≡ SLOTS };
}

impl SlotNumbers {
    /// Those of a session that was just made: 1 in each slot.
    pub fn new() -> SlotNumbers
        ensures { result ≡ fresh_numbers }
    {
        SlotNumbers {
            next: [1; SLOTS as usize],
        }
    }

    /// The same numbers once more.
    pub fn copy(&self) -> SlotNumbers
        ensures { result ≡ self.now }
    {
        let next = self.next;
        SlotNumbers { next }
    }

    /// The number of the next new call in a slot.
    pub fn next(&self, slot: u32) -> u32
        requires { slot < SLOTS }
        ensures { result ≡ slice_index self.now slot }
    {
        self.next[slot as usize]
    }

    /// Notes that a new call in this slot goes out. It takes no memory, so it is noted once the call is sealed.
    pub fn note_new(&mut self, slot: u32)
        requires slot { slot < SLOTS }
        requires left { slice_index self.old slot < 2 ^ 32 - 1 }
        ensures { self.new ≡ after_new self.old slot }
    {
        self.next[slot as usize] += 1;
    }
}
