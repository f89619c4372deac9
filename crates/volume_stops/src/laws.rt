//! Laws of stops.

ghost use Rattle.std.specs.Prelude.{◌≡◌, ◌+◌, ◌-◌, ◌<◌, ◌≤◌, ◌^◌, List, [], length};
ghost use Rattle.block_file.specs.Opened.{CanBeOpened};
ghost use Rattle.block_file.specs.Stored.{flaw_of};
ghost use Rattle.copy_model.specs.Effect.{IsAllowed, IsFirm, after};
ghost use Rattle.disk_model.specs.Disk.{Image, MayLeave};
ghost use Rattle.disk_model.specs.Elapsed.{IsOut, crash_moment};
ghost use Rattle.server_volume.specs.Moments.{Ran};
ghost use Rattle.server_volume.specs.Store.{Seat, Store};
ghost use Rattle.server_volume.specs.declared.used.Used.{Used};
ghost use Rattle.volume_stops.specs.Stops.{IsCertain, IsOpenedFrom, SparesRoot, StandsAs, StopsIn, crash_effect, kept_by, pending_after, pending_in, pending_within};
ghost use Rattle.volume_stops.specs.declared.kept.Kept.{Kept};

use block_file::may_be_opened;
use copy_model::volume_effects;

/// Calls were made on a volume whose machine hadn't stopped before them. Whatever a crash leaves as of the moment of the stop,
/// if it stopped in them, and else as of now, can be opened, and while there is a next boot number it is a volume. What is
/// opened of it is what such a stop leaves, and the table in force tells what was kept. Between two steps no calls are made.
pub fn stops_leave_volumes()
    ensures opens { (old new : Seat) (used : List Used) (image : Image) → Ran old new [] used → StandsAs old → (IsOut old.fuse → ⊥)
        → MayLeave (new.timeline.state (crash_moment new.fuse new.timeline)) image → CanBeOpened old.store.size image }
    ensures sound { (old new : Seat) (used : List Used) (image : Image) → Ran old new [] used → StandsAs old → (IsOut old.fuse → ⊥)
        → MayLeave (new.timeline.state (crash_moment new.fuse new.timeline)) image → old.store.volume.boot < 2 ^ 32 - 1
        → flaw_of old.store.size image ≡ None }
    ensures stops { (old new : Seat) (used : List Used) (image : Image) (t : Store) → Ran old new [] used → StandsAs old → (IsOut old.fuse → ⊥)
        → MayLeave (new.timeline.state (crash_moment new.fuse new.timeline)) image → IsOpenedFrom image t → t.size ≡ old.store.size
        → StopsIn old.store used (kept_by (length t.volume.files) t.homes (pending_within (pending_in old.store) used)) t }
    ensures between { (seat : Seat) → Ran seat seat [] [] }
{
    may_be_opened();
}

/// What a crash behind the calls of a step may find unfinished is what is in doubt then: the last commit that failed.
pub fn failed_commits_are_pending()
    ensures pending { (old new : Seat) (used : List Used) → Ran old new [] used → IsCertain old.store.volume
        → pending_in new.store ≡ pending_after (pending_in old.store) used }
    ensures certain { (old new : Seat) (used : List Used) → Ran old new [] used → IsCertain old.store.volume → IsCertain new.store.volume }
{}

/// A volume that is opened after a stop has the next boot number, and the tag and as many files as before. Where the step made
/// one call at most, the stop is to the volume one effect that is allowed: a crash, with the commit of that call under way, that
/// kept what was told.
pub fn one_stop_is_one_crash()
    ensures boot { (s t : Store) (used : List Used) (kept : Kept) → StopsIn s used kept t → t.volume.boot ≡ s.volume.boot + 1 }
    ensures tag { (s t : Store) (used : List Used) (kept : Kept) → StopsIn s used kept t → t.tag ≡ s.tag }
    ensures files { (s t : Store) (used : List Used) (kept : Kept) → StopsIn s used kept t → length t.volume.files ≡ length s.volume.files }
    ensures allowed { (s t : Store) (used : List Used) (kept : Kept) → StopsIn s used kept t → length used ≤ 1
        → IsAllowed s.volume (crash_effect kept used) }
    ensures crashes { (s t : Store) (used : List Used) (kept : Kept) → StopsIn s used kept t → length used ≤ 1 → IsFirm s.volume
        → SparesRoot s used → t.volume ≡ after s.volume (crash_effect kept used) }
{
    volume_effects();
}
