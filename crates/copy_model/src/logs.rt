ghost use Rattle.std.specs.Prelude.{◌≡◌, ◌⊎◌, ℕ, ◌<◌, ◌≤◌, Bool, true, false, None, Some, List, [], ◌∷◌, ◌++◌};
ghost use Rattle.std.specs.List.{list_any};
ghost use Rattle.copy_model.specs.Job.{Entry, Sized, size_of, has_landed, has_ended, IsChunk, unlanded, FirstUnlanded, AllowsCommit, Allows};
ghost use Rattle.copy_model.specs.Marks.{len_of, has_byte, is_stopped, is_committed, AreSound};

/// The chunk that a search of a log finds is the first that has not landed, and there is no other; it finds
/// none exactly where all have landed.
pub fn first_chunks()
    ensures first { (es : List Entry) (total off : ℕ) → unlanded es total ≡ Some off → FirstUnlanded es total off }
    ensures only { (es : List Entry) (total off : ℕ) → FirstUnlanded es total off → unlanded es total ≡ Some off }
    ensures none { (es : List Entry) (total : ℕ) → unlanded es total ≡ None → (off : ℕ) → IsChunk total off → has_landed es off ≡ true }
    ensures all_landed { (es : List Entry) (total : ℕ) → ((off : ℕ) → IsChunk total off → has_landed es off ≡ true) → unlanded es total ≡ None }
{}

/// A log with one more entry that is allowed: it stays sound, a mark that rose stays, and its size is given once.
pub fn logs_grow()
    ensures sound_none { (consecutive : Bool) → AreSound consecutive [] }
    ensures sound { (consecutive : Bool) (es : List Entry) (e : Entry) → AreSound consecutive es → Allows consecutive es e
        → AreSound consecutive (es ++ e ∷ []) }
    ensures grows { (consecutive : Bool) (es : List Entry) (e : Entry) → Allows consecutive es e → len_of es ≤ len_of (es ++ e ∷ []) }
    ensures fixed { (consecutive : Bool) (es : List Entry) (e : Entry) → Allows consecutive es e → is_committed es ≡ true
        → len_of (es ++ e ∷ []) ≡ len_of es }
    // An entry that gives no size leaves it as it was.
    ensures len { (es : List Entry) (e : Entry) → size_of (e ∷ []) ≡ None → len_of (es ++ e ∷ []) ≡ len_of es }
    ensures same { (es : List Entry) (e : Entry) → size_of (e ∷ []) ≡ None → size_of (es ++ e ∷ []) ≡ size_of es }
    // The size is that of the first entry that gives one.
    ensures first { (es : List Entry) (e : Entry) → size_of es ≡ None → size_of (es ++ e ∷ []) ≡ size_of (e ∷ []) }
    ensures sized { (es : List Entry) (e : Entry) (len : ℕ) → size_of es ≡ Some len → size_of (es ++ e ∷ []) ≡ Some len }
    ensures size { (es : List Entry) (e : Entry) (len : ℕ) → size_of (es ++ e ∷ []) ≡ Some len
        → (size_of es ≡ Some len) ⊎ ((size_of es ≡ None) × (e ≡ Sized len)) }
    ensures stays { (test : Entry → Bool) (es : List Entry) (e : Entry) → list_any test es ≡ true → list_any test (es ++ e ∷ []) ≡ true }
    ensures rises { (test : Entry → Bool) (es : List Entry) (e : Entry) → list_any test (es ++ e ∷ []) ≡ true
        → (list_any test es ≡ true) ⊎ (test e ≡ true) }
    ensures adds { (test : Entry → Bool) (es : List Entry) (e : Entry) → test e ≡ true → list_any test (es ++ e ∷ []) ≡ true }
    // An entry that fails a test changes nothing of it.
    ensures fails { (test : Entry → Bool) (es : List Entry) (e : Entry) → test e ≡ false → list_any test (es ++ e ∷ []) ≡ list_any test es }
{}

/// What a log that grew so says of its copy: a stop or a commit ends it, and where a commit is allowed each byte
/// of the range has landed.
pub fn log_marks()
    ensures stopped { (es : List Entry) → is_stopped es ≡ true → has_ended es ≡ true }
    ensures committed { (es : List Entry) → is_committed es ≡ true → has_ended es ≡ true }
    ensures landed { (consecutive : Bool) (es : List Entry) (q : ℕ) → AreSound consecutive es → AllowsCommit es → q < len_of es
        → has_byte es q ≡ true }
{}
