ghost use Rattle.std.specs.Prelude.{◌≡◌, ℕ, ◌-◌, ◌≤◌, false, List, length};
ghost use Rattle.copy_model.specs.Volume.{Volume, formatted, file_at, byte_at};
ghost use Rattle.copy_model.specs.Moment.{seen_source, seen_dest};
ghost use Rattle.copy_model.specs.Promise.{Shows, IsAlike};
ghost use Rattle.copy_model.specs.Effect.{Effect, Rests, Writes, Commits, after, IsAllowed, IsReady, IsCrashOf, WritesAt, IsWriting, IsFirm, IsVolumeRun};

/// What a step that is allowed leaves of the bytes of a volume: a byte that it doesn't write stays, and nothing
/// new is shown of it; a crash and a commit show nothing new.
pub fn volume_effects()
    ensures firm_start { (files capacity : ℕ) → IsFirm (formatted files capacity) }
    // So is the other of two volumes with as many files that take the same steps.
    ensures firm { (v b : Volume) (e : Effect) → IsFirm b → length v.files ≡ length b.files → IsAllowed v e → IsFirm (after b e) }
    ensures files { (v : Volume) (e : Effect) → length (after v e).files ≡ length v.files }
    ensures quiet { (v : Volume) (e : Effect) (file place : ℕ) → IsAllowed v e → (WritesAt e file place → ⊥) → (IsCrashOf e → ⊥)
        → (after v e).broken ≡ false
        → (v.broken ≡ false) × (byte_at (file_at (after v e) file).now place ≡ byte_at (file_at v file).now place) }
    ensures shown { (v : Volume) (e : Effect) (file place x : ℕ) → IsAllowed v e → (WritesAt e file place → ⊥)
        → Shows (seen_dest (after v e)) file place x → Shows (seen_dest v) file place x }
    ensures written { (v : Volume) (e : Effect) (file off : ℕ) (bytes : List ℕ) (place : ℕ) → e ≡ Writes file off bytes → IsAllowed v e
        → WritesAt e file place → byte_at (file_at (after v e) file).now place ≡ byte_at bytes (place - off) }
    ensures settles { (v : Volume) (file place x : ℕ) → IsFirm v → IsReady v file
        → Shows (seen_dest (after v (Commits file))) file place x → x ≡ byte_at (file_at v file).now place }
    ensures zeros { (files capacity file place x : ℕ) → Shows (seen_dest (formatted files capacity)) file place x → x ≡ 0 }
{}

/// Two volumes that are alike at a byte stay so where both take the same step, or where one of them alone is
/// written to elsewhere, or fails to be.
pub fn alike_volumes()
    ensures both { (v b : Volume) (e : Effect) (file place : ℕ) → IsFirm v → IsFirm b → length v.files ≡ length b.files → IsAllowed v e
        → IsAlike (seen_dest v) (seen_dest b) file place → IsAlike (seen_dest (after v e)) (seen_dest (after b e)) file place }
    ensures one { (v b : Volume) (e : Effect) (file place : ℕ) → IsAllowed v e → IsWriting e → (WritesAt e file place → ⊥)
        → IsAlike (seen_dest v) (seen_dest b) file place → IsAlike (seen_dest (after v e)) (seen_dest b) file place }
{}

/// A change attribute names the contents of its file, over writes, commits and crashes.
pub fn change_names_contents()
    ensures same { (volume : ℕ → Volume) (effect : ℕ → Effect) → IsVolumeRun volume effect
        → (i k file place : ℕ) → (file_at (volume i) file).change ≡ (file_at (volume k) file).change
        → byte_at (file_at (volume i) file).now place ≡ byte_at (file_at (volume k) file).now place }
    // Within an opening it never falls.
    ensures rises { (volume : ℕ → Volume) (effect : ℕ → Effect) → IsVolumeRun volume effect
        → (i k file : ℕ) → i ≤ k → (volume i).boot ≡ (volume k).boot → (file_at (volume i) file).change ≤ (file_at (volume k) file).change }
    ensures opened { (volume : ℕ → Volume) (effect : ℕ → Effect) → IsVolumeRun volume effect
        → (i k : ℕ) → i ≤ k → (volume i).boot ≤ (volume k).boot }
{}
