ghost use Rattle.std.specs.Prelude.{◌≡◌, ℕ, ◌<◌, length, Some};
ghost use Rattle.copy_model.specs.Volume.{Doubt, Volume, Kept, byte_at, file_at, crash};
ghost use Rattle.copy_model.specs.Moment.{seen_dest};
ghost use Rattle.copy_model.specs.Promise.{InRange, IsStableBy, IsKept, IsStopped, MayLeave};
ghost use Rattle.copy_model.specs.Examples.{good, uncommitted, unsized, changed, never_held, spilled, unclean, late_landing, late_commit};

/// A copy of two bytes that is kept and stopped. It gets so far as to be reported as stable, with bytes in
/// its range.
pub fn kept_example()
    ensures kept { IsKept good }
    ensures stopped { IsStopped good }
    ensures stable { IsStableBy good 0 5 }
    ensures in_range { InRange ((good 5).copy 0) 3 }
{}

/// Runs that depart from that one in one way each, and break the promise.
pub fn refused_examples()
    ensures uncommitted { IsKept uncommitted → ⊥ }
    ensures never_sized { IsKept unsized → ⊥ }
    ensures changed { IsKept changed → ⊥ }
    ensures never_held { IsKept never_held → ⊥ }
    ensures spilled { IsKept spilled → ⊥ }
    ensures unclean { IsKept unclean → ⊥ }
    ensures late_landing { IsStopped late_landing → ⊥ }
    ensures late_commit { IsStopped late_commit → ⊥ }
    ensures moved { IsStopped changed → ⊥ }
{}

/// What the promise says that a crash may leave is what crashes leave.
pub fn crash_leavings()
    ensures may_leave { (v : Volume) (kept : Kept) (file place value : ℕ)
        → byte_at (file_at (crash v kept) file).now place ≡ value → MayLeave (seen_dest v) file place value }
    ensures leaves { (v : Volume) (file place value : ℕ)
        → ((d : Doubt) → v.doubt ≡ Some d → d.file < length v.files)
        → MayLeave (seen_dest v) file place value
        → (kept : Kept) × (byte_at (file_at (crash v kept) file).now place ≡ value) }
{}
