ghost use Rattle.std.specs.Prelude.{ℕ, Bool, IsTrue};
ghost use Rattle.disk_model.specs.declared.fuse.Fuse.{Fuse};
ghost use Rattle.disk_model.specs.Disk.{Image, DiskState, MayLeave};
ghost use Rattle.disk_model.specs.Elapsed.{Timeline, crash_moment, IsOut};
ghost use Rattle.disk_model.specs.Passes.{Passes};

/// What a crash leaves, over any calls. The disk as it reads is among the images that a crash may
/// leave. What holds of each image that a crash in one run of calls might have left, and of each in
/// the next, holds of each in both; and it holds of what a crash leaves then, if the machine hadn't
/// stopped before them.
pub fn crash_laws()
    ensures as_read { (s : DiskState) → MayLeave s s.reads }
    ensures joined { (p : Image → Bool) (first second third : Fuse) (old middle new : Timeline)
        → Passes first second old middle (λ image. IsTrue (p image))
        → Passes second third middle new (λ image. IsTrue (p image))
        → Passes first third old new (λ image. IsTrue (p image)) }
    ensures crashed { (p : Image → Bool) (old_fuse new_fuse : Fuse) (old new : Timeline) (image : Image)
        → Passes old_fuse new_fuse old new (λ image. IsTrue (p image)) → (IsOut old_fuse → ⊥)
        → MayLeave (new.state (crash_moment new_fuse new)) image → IsTrue (p image) }
{}
