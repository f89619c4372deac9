//! Laws of what texts count.

ghost use Rattle.std.specs.Prelude.{ℕ, ◌≡◌, ◌+◌, ◌*◌, ◌^◌, ◌≤◌, List, [], ◌∷◌, ◌++◌, All, length};
ghost use Rattle.wire_lines.specs.LineText.{lines_text};
ghost use Rattle.wire_lines.specs.declared.line.Line.{Line};
ghost use Rattle.wire_lines.specs.declared.line.Line.TheVariants.{End as Ends};
ghost use Rattle.wire_tally.specs.Counted.{LandsShort, counted};
ghost use Rattle.wire_tally.specs.Tally.{IsWholeText, tallied};
ghost use Rattle.wire_tally.specs.declared.tally.Tally.{Tally};

/// A transcript may be counted in pieces, each of whole lines.
pub fn whole_texts_add_up()
    ensures { (front more : List ℕ) (t : Tally) → IsWholeText front → tallied (front ++ more) t ≡ tallied more (tallied front t) }
{}

/// No text counts nothing.
pub fn no_text_counts_nothing()
    ensures { (t : Tally) → tallied [] t ≡ t }
{}

/// The text of lines is whole, and so are no text and two whole ones, one behind the other.
pub fn lines_are_whole()
    ensures lines { (lines : List Line) → IsWholeText (lines_text lines) }
    ensures none { IsWholeText [] }
    ensures both { (front more : List ℕ) → IsWholeText front → IsWholeText more → IsWholeText (front ++ more) }
{}

/// A text has no more lines than bytes, and what one line says that landed is below 2^32 bytes.
pub fn tallies_grow_by_bytes()
    ensures stable { (text : List ℕ) (t : Tally) → (tallied text t).stable ≤ t.stable + length text }
    ensures exact { (text : List ℕ) (t : Tally) → (tallied text t).exact ≤ t.exact + length text }
    ensures landed { (text : List ℕ) (t : Tally) → (tallied text t).landed ≤ t.landed + length text * 2 ^ 32 }
{}

/// The last line of a whole run counts nothing.
pub fn end_lines_count_nothing()
    ensures { (records : ℕ) (t : Tally) → tallied (lines_text (Ends records ∷ [])) t ≡ t }
{}

/// The text of lines counts what the lines are: a copy for each note that one is stable or exact, and the length of each chunk that
/// landed, which is below 2^32 bytes.
pub fn lines_count_by_their_notes()
    ensures { (lines : List Line) (t : Tally) → All LandsShort lines → tallied (lines_text lines) t ≡ counted lines t }
{}
