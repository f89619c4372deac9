//! Laws of a server's calls on its volume.

ghost use Rattle.std.specs.Prelude.{◌≡◌, ◌++◌, ◌≤◌, ℕ, false, length, true, List, None, Some};
ghost use Rattle.block_file.specs.declared.faults.ReadFault.TheVariants as reading;
ghost use Rattle.block_file.specs.declared.faults.WriteFault.TheVariants as writing;
ghost use Rattle.outcome.specs.Causes.{Rose, RoseBy};
ghost use Rattle.server_volume.specs.Calls.{broken_fault, commit_call, read_call, write_call, write_fault};
ghost use Rattle.server_volume.specs.Choices.{Choice, Failed, choice_of};
ghost use Rattle.server_volume.specs.declared.used.Used.{Used};
ghost use Rattle.server_volume.specs.Moments.{Counted, Ran, failures_in};
ghost use Rattle.server_volume.specs.Store.{Seat, Store};
ghost use Rattle.volume_laws.specs.Failing.{AreRefused, any_failed, breaks_in};
ghost use Rattle.volume_laws.specs.Keeping.{KeepsFiles};
ghost use Rattle.volume_laws.specs.Taking.{HasRoomFor};

use disk_model::Disk;

/// No call changes how many files a volume has and how long they may be, the number of its opening, its tag, and how many blocks
/// its disk has.
pub fn steps_keep_the_files()
    ensures { (old new : Seat) (used more : List Used) → Ran old new used more → KeepsFiles old.store new.store }
{}

/// Where the disk failed in no call of a step, each call of it is refused for what the volume alone refuses it for, and goes
/// through otherwise. So a volume that isn't broken reads and commits, and writes where it has room and a further write number.
pub fn sound_disks_have_no_faults()
    ensures read { (step used : List Used) (s : Store) (file off len : ℕ) → failures_in step ≡ 0
        → (read_call (choice_of step) used s file off len).fault ≡ broken_fault s.volume.broken }
    ensures write { (step used : List Used) (s : Store) (file off : ℕ) (bytes : List ℕ) → failures_in step ≡ 0
        → (write_call (choice_of step) used s file off bytes).fault ≡ write_fault s.volume off bytes }
    ensures commit { (step used : List Used) (s : Store) (file : ℕ) → failures_in step ≡ 0
        → (commit_call (choice_of step) used s file).fault ≡ broken_fault s.volume.broken }
    ensures room { (s : Store) (off : ℕ) (bytes : List ℕ) → HasRoomFor s.volume off (length bytes) → write_fault s.volume off bytes ≡ None }
    ensures whole { (s : Store) → s.volume.broken ≡ false → broken_fault s.volume.broken ≡ None }
{}

/// A disk's count of faults never falls, and rises by one at least for each call that is noted as failed.
pub fn counts_rise_where_calls_fail<D: Disk>()
    ensures failed { (old new : Seat) (used more : List Used) → Counted D.Told old new used (used ++ more) → RoseBy (failures_in more) old.faults new.faults }
    ensures some { (old new : Seat) (used more : List Used) → Counted D.Told old new used (used ++ more) → any_failed more ≡ true → Rose old.faults new.faults }
    ensures none { (old new : Seat) (used more : List Used) → Counted D.Told old new used (used ++ more) → (Rose old.faults new.faults → ⊥) → failures_in more ≡ 0 }
    ensures later { (old new : Seat) (used more : List Used) → Counted D.Told old new used more → RoseBy 0 old.faults new.faults }
{}

/// A call is answered that the disk failed only where it did, in a call that the volume took.
pub fn failed_calls_were_taken()
    ensures read { (choice : Choice) (used : List Used) (s : Store) (file off len : ℕ) → (read_call choice used s file off len).fault ≡ Some reading.DiskFailed
        → (choice (length used) ≡ Failed) × (s.volume.broken ≡ false) }
    ensures write { (choice : Choice) (used : List Used) (s : Store) (file off : ℕ) (bytes : List ℕ) → (write_call choice used s file off bytes).fault ≡ Some writing.DiskFailed
        → (choice (length used) ≡ Failed) × HasRoomFor s.volume off (length bytes) }
    ensures commit { (choice : Choice) (used : List Used) (s : Store) (file : ℕ) → (commit_call choice used s file).fault ≡ Some reading.DiskFailed
        → (choice (length used) ≡ Failed) × (s.volume.broken ≡ false) }
{}

/// A volume breaks only in a WRITE or COMMIT that is noted as failed, at most one in a step. One that is broken stays as it is, and takes no
/// call.
pub fn volumes_break_where_calls_fail()
    ensures whole { (old new : Seat) (used more : List Used) → Ran old new used (used ++ more) → breaks_in more ≡ 0 → new.store.volume.broken ≡ old.store.volume.broken }
    ensures broken { (old new : Seat) (used more : List Used) → Ran old new used (used ++ more) → 1 ≤ breaks_in more → new.store.volume.broken ≡ true }
    ensures once { (old new : Seat) (used more : List Used) → Ran old new used (used ++ more) → breaks_in more ≤ 1 }
    ensures refused { (old new : Seat) (used more : List Used) → Ran old new used (used ++ more) → old.store.volume.broken ≡ true
        → AreRefused more × (new.store ≡ old.store) }
{}
