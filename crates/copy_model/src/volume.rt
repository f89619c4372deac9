ghost use Rattle.std.specs.Prelude.{◌≡◌, ℕ, ◌+◌, ◌<◌, ◌≤◌, max, List, ◌∷◌, None, length};
ghost use Rattle.copy_model.specs.Volume.{Volume, file_at, byte_at, bytes_at, with_bytes_at, change_of, written, write, committed, commit, fail_commit, Kept, Old, New, recovered, crash};

/// Where bytes stand after a piece is written into a list of bytes, and what a read of it gives.
pub fn written_bytes()
    ensures length { (bytes : List ℕ) (off : ℕ) (piece : List ℕ)
        → length (with_bytes_at bytes off piece) ≡ max (length bytes) (off + length piece) }
    ensures within { (bytes : List ℕ) (off : ℕ) (piece : List ℕ) (k : ℕ) → k < length piece
        → byte_at (with_bytes_at bytes off piece) (off + k) ≡ byte_at piece k }
    ensures before { (bytes : List ℕ) (off : ℕ) (piece : List ℕ) (place : ℕ) → place < off
        → byte_at (with_bytes_at bytes off piece) place ≡ byte_at bytes place }
    ensures behind { (bytes : List ℕ) (off : ℕ) (piece : List ℕ) (place : ℕ) → off + length piece ≤ place
        → byte_at (with_bytes_at bytes off piece) place ≡ byte_at bytes place }
    // Between the old end and the piece there are zeros.
    ensures gap { (bytes : List ℕ) (off : ℕ) (piece : List ℕ) (place : ℕ) → length bytes ≤ place → place < off
        → byte_at (with_bytes_at bytes off piece) place ≡ 0 }

    ensures read_length { (bytes : List ℕ) (off len : ℕ) → length (bytes_at bytes off len) ≡ len }
    ensures read { (bytes : List ℕ) (off len k : ℕ) → k < len
        → byte_at (bytes_at bytes off len) k ≡ byte_at bytes (off + k) }
    ensures read_back { (bytes : List ℕ) (off : ℕ) (piece : List ℕ)
        → bytes_at (with_bytes_at bytes off piece) off (length piece) ≡ piece }
{}

/// What a write and a commit make of the files of a volume: they change one, which stays missing if the
/// volume doesn't have it.
pub fn written_files()
    ensures written { (v : Volume) (file off b : ℕ) (bs : List ℕ) → file < length v.files
        → file_at (write v file off (b ∷ bs)) file
        ≡ written (file_at v file) off (b ∷ bs) (change_of v.boot (v.writes + 1)) }
    ensures not_written { (v : Volume) (file off : ℕ) (piece : List ℕ) (other : ℕ) → (other ≡ file → ⊥)
        → file_at (write v file off piece) other ≡ file_at v other }
    ensures committed { (v : Volume) (file : ℕ) → file_at (commit v file) file ≡ committed (file_at v file) }
    ensures not_committed { (v : Volume) (file other : ℕ) → (other ≡ file → ⊥)
        → file_at (commit v file) other ≡ file_at v other }
{}

/// What a crash leaves of the files of a volume: what was safe, and after a commit that failed that or what
/// it was making safe.
pub fn recovered_files()
    ensures certain { (v : Volume) (kept : Kept) (file : ℕ) → v.doubt ≡ None
        → file_at (crash v kept) file ≡ recovered (file_at v file) }
    // All that a commit made safe is there afterwards, as it was before.
    ensures committed { (v : Volume) (file : ℕ) (kept : Kept) → v.doubt ≡ None
        → file_at (crash (commit v file) kept) file ≡ committed (file_at v file) }
    // The safe bytes come back with the change attribute that belongs to them.
    ensures old { (v : Volume) (file : ℕ) → let f = file_at v file in
        file_at (crash v Old) file ≡ record f { now = f.safe; change = f.safe_change } }
    ensures new { (v : Volume) (file : ℕ)
        → file_at (crash (fail_commit v file) New) file ≡ committed (file_at v file) }
    ensures others { (v : Volume) (file : ℕ) (kept : Kept) (other : ℕ) → (other ≡ file → ⊥)
        → file_at (crash (fail_commit v file) kept) other ≡ recovered (file_at v other) }
{}
