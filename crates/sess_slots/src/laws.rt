ghost use Rattle.std.specs.Prelude.{map, filter, not, ◌&&◌, ◌≡◌, ◌≢◌, ℕ, ◌+◌, ◌<◌, ◌≤◌, ◌%◌, ◌^◌, List, length, slice_index};
ghost use Rattle.sess_slots.specs.declared.answers.Place.{Place};
ghost use Rattle.sess_slots.specs.declared.slot.Slot.{Slot};
ghost use Rattle.sess_slots.specs.Slots.{next_number, begin_at, after_reply};
ghost use Rattle.sess_slots.specs.Clients.{is_of, is_confirmed};
ghost use Rattle.sess_slots.specs.Runs.{SlotCall, executed};
ghost use Rattle.sess_slots.specs.Lives.{TableCall, no_clients, after_all};
ghost use Rattle.nfs_base.specs.declared.limits.TheConstants.{MOST_CLIENTS, MOST_SESSIONS};

use crate::Begin;

/// What holds of every run of calls on a slot, whatever numbers and roots they have, sent again in any order.
/// The numbers that are executed are those after the slot's own, one after the other. So each is executed
/// once: before one comes again, all the 2^32 numbers have come. A number that was executed is a retry
/// until the next one is, answered to its own root context alone, and another number than these two is neither
/// executed nor answered.
pub fn a_number_runs_once()
    ensures in_order { (place : Place) (slot : Slot) (calls : List SlotCall) (k : ℕ) → k < length (executed place slot calls) → slice_index (executed place slot calls) k ≡ (slot.last + 1 + k) % 2 ^ 32 }
    ensures once { (place : Place) (slot : Slot) (calls : List SlotCall) (i j : ℕ) → i < j → j < length (executed place slot calls) → slice_index (executed place slot calls) i ≡ slice_index (executed place slot calls) j → i + 2 ^ 32 ≤ j }
    ensures retried { (place : Place) (slot : Slot) (root : ℕ) (reply : List ℕ) → begin_at (after_reply slot root reply) (next_number slot.last) root place ≡ Begin.Replay place }
    ensures guarded { (place : Place) (slot : Slot) (root other : ℕ) (reply : List ℕ) → root ≢ other → begin_at (after_reply slot root reply) (next_number slot.last) other place ≡ Begin.FalseRetry }
{}

/// What holds of the tables of one opening of a server after any list of calls, whatever is ended on the way:
/// there are at most 16 clients and 32 sessions; of a pair of a principal and an owner at most one client is
/// confirmed, and at most one isn't; no two clients have one ID, and no two sessions one number, which its ID is
/// made of. Both rise in the order in which they were made.
pub fn tables_are_kept()
    ensures clients { (boot : ℕ) (calls : List TableCall) → length (after_all (no_clients boot) calls).clients ≤ MOST_CLIENTS }
    ensures confirmed { (boot : ℕ) (calls : List TableCall) (principal owner : List ℕ) → length (filter (λ c. is_of principal owner c && is_confirmed c) (after_all (no_clients boot) calls).clients) ≤ 1 }
    ensures unconfirmed { (boot : ℕ) (calls : List TableCall) (principal owner : List ℕ) → length (filter (λ c. is_of principal owner c && not (is_confirmed c)) (after_all (no_clients boot) calls).clients) ≤ 1 }
    ensures sessions { (boot : ℕ) (calls : List TableCall) → length (after_all (no_clients boot) calls).sessions ≤ MOST_SESSIONS }
    ensures client_ids { (boot : ℕ) (calls : List TableCall) (i j : ℕ) → i < j → j < length (map (λ c. c.id) (after_all (no_clients boot) calls).clients) → slice_index (map (λ c. c.id) (after_all (no_clients boot) calls).clients) i < slice_index (map (λ c. c.id) (after_all (no_clients boot) calls).clients) j }
    ensures session_numbers { (boot : ℕ) (calls : List TableCall) (i j : ℕ) → i < j → j < length (map (λ s. s.number) (after_all (no_clients boot) calls).sessions) → slice_index (map (λ s. s.number) (after_all (no_clients boot) calls).sessions) i < slice_index (map (λ s. s.number) (after_all (no_clients boot) calls).sessions) j }
{}
