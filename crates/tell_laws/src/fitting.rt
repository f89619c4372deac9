ghost use Rattle.std.specs.Prelude.{◌≡◌, ◌+◌, ◌<◌, ◌^◌, ℕ, List, []};
ghost use Rattle.copy_model.specs.Volume.{Kept, Volume, crash, fail_commit, formatted};
ghost use Rattle.commit_laws.specs.Calling.{CameByCalls};
ghost use Rattle.server_volume.specs.Moments.{Ran};
ghost use Rattle.server_volume.specs.Store.{Seat, Store};
ghost use Rattle.server_volume.specs.declared.used.Used.{Used};
ghost use Rattle.tell_laws.specs.Fitting.{IsFitting};
ghost use Rattle.tell_laws.specs.Telling.{FitsWords};
ghost use Rattle.tell_laws.specs.Volumes.{AreOffRoot};

/// From its formatting on, over calls that spare the root and crashes, a volume stays one whose numbers fit in words, so that what
/// GETATTR tells of it is read back (RFC 8881 section 18.7).
pub fn volumes_stay_fitting()
    ensures start { (files capacity : ℕ) → capacity < 2 ^ 64 → IsFitting (formatted files capacity) }
    ensures step { (old new : Seat) (used : List Used) → Ran old new [] used → AreOffRoot used → IsFitting old.store.volume → IsFitting new.store.volume }
    ensures came { (old new : Store) (used : List Used) → CameByCalls old new [] used → AreOffRoot used → IsFitting old.volume → IsFitting new.volume }
    // A crash may come with a commit under way.
    ensures under { (v : Volume) (file : ℕ) → (file ≡ 0 → ⊥) → IsFitting v → IsFitting (fail_commit v file) }
    ensures crash { (v : Volume) (kept : Kept) → v.boot + 1 < 2 ^ 32 → IsFitting v → IsFitting (crash v kept) }
    ensures words { (v : Volume) → IsFitting v → FitsWords v }
    // Whatever files are called, the number of the last write fits in a word.
    ensures writes { (old new : Seat) (used : List Used) → Ran old new [] used → old.store.volume.writes < 2 ^ 32 → new.store.volume.writes < 2 ^ 32 }
    ensures opening { (old new : Store) (used : List Used) → CameByCalls old new [] used → new.volume.boot ≡ old.volume.boot }
    ensures numbered { (old new : Store) (used : List Used) → CameByCalls old new [] used → old.volume.writes < 2 ^ 32 → new.volume.writes < 2 ^ 32 }
{
    copy_model::written_bytes();
    copy_model::written_files();
}
