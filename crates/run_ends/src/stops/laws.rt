//! Laws of servers that are opened anew.

ghost use Rattle.std.specs.Prelude.{◌≡◌, ◌-◌, ◌<◌, ◌^◌, [], List, None, Option, length};
ghost use Rattle.block_file.specs.Opened.{Opened, StandsFor};
ghost use Rattle.block_file.specs.declared.faults.OpenFault.{OpenFault};
ghost use Rattle.block_file.specs.declared.faults.OpenFault.TheVariants.{DiskFailed};
ghost use Rattle.disk_model.specs.Elapsed.{IsOut};
ghost use Rattle.disk_model.specs.declared.fuse.Fuse.TheVariants.{Unset};
ghost use Rattle.run_ends.specs.Stops.Reopening.{IsReopened, IsUnopened, MayReopen, MadeCalls};
ghost use Rattle.server_volume.specs.Store.{store_of};
ghost use Rattle.server_volume.specs.declared.used.Used.{Used};
ghost use Rattle.volume_stops.specs.Stops.{IsCertain, StopsIn, kept_by, pending_after, pending_in, pending_within};
ghost use Rattle.volume_stops.specs.declared.pending.Pending.{Pending};

use disk_model::CrashDisk;
use volume_stops::{failed_commits_are_pending, stops_leave_volumes};

/// A server's step made calls on its volume, before which the machine hadn't stopped. Then the server may be opened anew. What is
/// opened of its disk is what a stop in these calls leaves, with what the home of the table tells of the commit that was
/// unfinished; and while there is a next boot number, nothing but a failure of the disk keeps it from that. Between two steps
/// no calls are made.
pub fn servers_open_anew<D: CrashDisk>()
    ensures may { (old new : Opened D) (used : List Used) → MadeCalls D.Told D.size D.fuse D.timeline D.faults old new used
        → (D.Told → IsOut (D.fuse old.disk) → ⊥) → MayReopen D.Told D.size D.fuse D.timeline new.disk }
    ensures stops { (old new next : Opened D) (used : List Used) (pending : Option Pending) → D.Told
        → MadeCalls D.Told D.size D.fuse D.timeline D.faults old new used → (D.Told → IsOut (D.fuse old.disk) → ⊥)
        → IsReopened D.Told D.size D.fuse D.timeline D.faults new.disk next → pending ≡ pending_in (store_of D.size old)
        → StopsIn (store_of D.size old) used (kept_by (length next.volume.files) next.homes (pending_within pending used)) (store_of D.size next) }
    ensures fails { (old new : Opened D) (used : List Used) (now : D) (fault : OpenFault) → D.Told
        → MadeCalls D.Told D.size D.fuse D.timeline D.faults old new used → (D.Told → IsOut (D.fuse old.disk) → ⊥)
        → old.volume.boot < 2 ^ 32 - 1 → IsUnopened D.Told D.size D.fuse D.timeline D.faults new.disk now fault → fault ≡ DiskFailed }
    ensures noted { (old new : Opened D) (used : List Used) (pending : Option Pending) → D.Told
        → MadeCalls D.Told D.size D.fuse D.timeline D.faults old new used → pending ≡ pending_in (store_of D.size old)
        → pending_after pending used ≡ pending_in (store_of D.size new) }
    ensures unset { (old new : Opened D) (used : List Used) → D.Told
        → MadeCalls D.Told D.size D.fuse D.timeline D.faults old new used → D.fuse old.disk ≡ Unset → D.fuse new.disk ≡ Unset }
    ensures fresh { (disk : D) (next : Opened D) → D.Told → IsReopened D.Told D.size D.fuse D.timeline D.faults disk next
        → pending_in (store_of D.size next) ≡ None }
    ensures between { (v : Opened D) → (D.Told → StandsFor D.timeline D.size v) → IsCertain v.volume
        → MadeCalls D.Told D.size D.fuse D.timeline D.faults v v [] }
{
    stops_leave_volumes();
    failed_commits_are_pending();
}
