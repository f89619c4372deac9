ghost use Rattle.std.specs.Prelude.{ℕ, ◌≡◌, ◌+◌, ◌<◌, ◌≤◌, ◌^◌, ◌++◌, List, Some, Ok, Err, All, IsTrue, decimal, length};
ghost use Rattle.wire_schedule.specs.declared.directive.Directive.{Directive};
ghost use Rattle.wire_schedule.specs.declared.directive.Entry.{Entry};
ghost use Rattle.wire_schedule.specs.declared.event.Event.{Event};
ghost use Rattle.wire_schedule.specs.declared.context.Context.{Context};
ghost use Rattle.wire_schedule.specs.Admission.{at_start, most_events};
ghost use Rattle.wire_schedule.specs.Expansion.{after_all, are_admitted, events_of_all, keeps_limits};
ghost use Rattle.wire_schedule.specs.Grammar.{directive_of};
ghost use Rattle.wire_schedule.specs.Numerals.{bytes_of, hex_text, number_of};
ghost use Rattle.wire_schedule.specs.ScheduleOf.{IsScheduleOf};
ghost use Rattle.wire_schedule.specs.ScheduleText.{FirstBad, scan, schedule_of};
ghost use Rattle.wire_schedule.specs.Words.{lines_of, words_of};
ghost use Rattle.wire_schedule.specs.Spelling.{entries_from, spelling, text_of, FitsFields};

/// A number is spelled by its decimal digits, and by no other word.
pub fn number_words()
    ensures reads_back { (n : ℕ) → n < 2 ^ 64 → number_of (decimal n) ≡ Some n }
    ensures only { (word : List ℕ) (n : ℕ) → number_of word ≡ Some n → (n < 2 ^ 64) × (word ≡ decimal n) }
{}

/// Up to 65,536 bytes are spelled by their lower-case hexadecimal digits, and by no other word.
pub fn byte_words()
    ensures reads_back { (bytes : List ℕ) → All (λ b. b < 256) bytes → 1 ≤ length bytes → length bytes ≤ 65536
        → bytes_of (hex_text bytes) ≡ Some bytes }
    ensures only { (word bytes : List ℕ) → bytes_of word ≡ Some bytes → All (λ b. b < 256) bytes × (word ≡ hex_text bytes) }
{}

/// A text is bad just where its first bad line is: the lines before that one are good, and with it they are not, whatever
/// lines follow.
pub fn first_bad_line()
    ensures first { (text : List ℕ) (n : ℕ) → schedule_of text ≡ Err n → FirstBad at_start 1 (lines_of text) n }
    ensures bad { (text : List ℕ) (n : ℕ) → FirstBad at_start 1 (lines_of text) n → schedule_of text ≡ Err n }
    ensures later { (lines more : List (List ℕ)) (n : ℕ) → scan at_start 1 lines ≡ Err n → scan at_start 1 (lines ++ more) ≡ Err n }
{}

/// What a line may give has one line that spells it, and only that line reads as it.
pub fn directive_lines()
    ensures reads_back { (directive : Directive) → FitsFields directive → IsTrue (keeps_limits directive)
        → directive_of (words_of (spelling directive)) ≡ Some directive }
    ensures only { (line : List ℕ) (directive : Directive) → directive_of (words_of line) ≡ Some directive
        → (line ≡ spelling directive) × FitsFields directive }
{}

/// Each list of what may come one after the other has a text, of a line for each.
pub fn schedule_texts()
    ensures { (directives : List Directive) → All FitsFields directives → All (λ directive. IsTrue (keeps_limits directive)) directives
        → IsTrue (are_admitted at_start (events_of_all (entries_from 1 directives)))
        → schedule_of (text_of directives) ≡ Ok (entries_from 1 directives) }
{}

/// A text is the schedule of just what its lines spell, where each event may come after those before it.
pub fn schedule_lines()
    ensures only { (text : List ℕ) (entries : List Entry) → schedule_of text ≡ Ok entries → IsScheduleOf text entries }
    ensures reads { (text : List ℕ) (entries : List Entry) → IsScheduleOf text entries → schedule_of text ≡ Ok entries }
{}

/// The events of a list of lines may come one after the other just where those of its front may, and then those of the
/// rest; they are no more than a schedule may have.
pub fn line_events()
    ensures parts { (context : Context) (front more : List Event) → IsTrue (are_admitted context (front ++ more))
        → IsTrue (are_admitted context front) × IsTrue (are_admitted (after_all context front) more) }
    ensures joined { (context : Context) (front more : List Event) → IsTrue (are_admitted context front)
        → IsTrue (are_admitted (after_all context front) more) → IsTrue (are_admitted context (front ++ more)) }
    ensures few { (context : Context) (events : List Event) → context.events ≤ most_events
        → IsTrue (are_admitted context events) → context.events + length events ≤ most_events }
{}
