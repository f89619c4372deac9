ghost use Rattle.wire_schedule.specs.Words.{lines_of, words_of};
ghost use Rattle.std.specs.Prelude.{ℕ, ◌≡◌, ◌≢◌, ◌<◌, ◌==◌, List, [], ◌∷◌, length, MatchOption, IfSome, IfNone};
ghost use Rattle.std.specs.Option.{option_map_or};
ghost use Rattle.std.specs.List.{slice_split};

/// The bytes before the first separator, and those after it, where there is one.
fn cut(text: &[u8], separator: u8) -> (&[u8], Option<&[u8]>)
    ensures parts { slice_split (λ b. b == separator) text.now
        ≡ result.0.now ∷ option_map_or (λ rest. slice_split (λ b. b == separator) rest.now) result.1 [] }
    ensures last { IfNone result.1 (result.0.now ≡ text.now) }
    ensures shorter { IfSome result.1 (λ rest. length rest.now < length text.now) }
{
    for (at, byte) in text.iter().enumerate() {
        if *byte == separator {
            return (&text[..at], Some(&text[at + 1..]));
        }
    }
    (text, None)
}

/// The first line of a text that isn't empty, without its newline, and the text after it.
pub(crate) fn first_line(text: &[u8]) -> (&[u8], &[u8])
    requires { 0 < length text.now }
    ensures line { lines_of text.now ≡ result.0.now ∷ lines_of result.1.now }
    ensures shorter { length result.1.now < length text.now }
{
    let (line, rest) = cut(text, b'\n');
    match rest {
        Some(rest) => (line, rest),
        None => (line, &text[text.len()..]),
    }
}

/// The first word of a line, and the line after its space, where there is one.
pub(crate) fn first_word(line: &[u8]) -> (&[u8], Option<&[u8]>)
    ensures { words_of line.now ≡ result.0.now ∷ option_map_or (λ rest. words_of rest.now) result.1 [] }
{
    cut(line, b' ')
}

/// The only word of a line.
pub(crate) fn one(line: &[u8]) -> Option<&[u8]>
    ensures { MatchOption result ((a : List ℕ) → words_of line.now ≢ a ∷ []) (λ a. words_of line.now ≡ a.now ∷ []) }
{
    match first_word(line) {
        (word, None) => Some(word),
        (_, Some(_)) => None,
    }
}

/// The words of a line that has two.
pub(crate) fn two(line: &[u8]) -> Option<(&[u8], &[u8])>
    ensures { MatchOption result ((a b : List ℕ) → words_of line.now ≢ a ∷ b ∷ [])
        (λ w. words_of line.now ≡ w.0.now ∷ w.1.now ∷ []) }
{
    let (first, Some(rest)) = first_word(line) else {
        return None;
    };
    Some((first, one(rest)?))
}

/// The words of a line that has three.
pub(crate) fn three(line: &[u8]) -> Option<(&[u8], &[u8], &[u8])>
    ensures { MatchOption result ((a b c : List ℕ) → words_of line.now ≢ a ∷ b ∷ c ∷ [])
        (λ w. words_of line.now ≡ w.0.now ∷ w.1.now ∷ w.2.now ∷ []) }
{
    let (first, Some(rest)) = first_word(line) else {
        return None;
    };
    let (second, third) = two(rest)?;
    Some((first, second, third))
}

/// The words of a line that has four.
pub(crate) fn four(line: &[u8]) -> Option<(&[u8], &[u8], &[u8], &[u8])>
    ensures { MatchOption result ((a b c d : List ℕ) → words_of line.now ≢ a ∷ b ∷ c ∷ d ∷ [])
        (λ w. words_of line.now ≡ w.0.now ∷ w.1.now ∷ w.2.now ∷ w.3.now ∷ []) }
{
    let (first, Some(rest)) = first_word(line) else {
        return None;
    };
    let (second, third, fourth) = three(rest)?;
    Some((first, second, third, fourth))
}

/// The words of a line that has six.
pub(crate) fn six(line: &[u8]) -> Option<(&[u8], &[u8], &[u8], &[u8], &[u8], &[u8])>
    ensures { MatchOption result ((a b c d e f : List ℕ) → words_of line.now ≢ a ∷ b ∷ c ∷ d ∷ e ∷ f ∷ [])
        (λ w. words_of line.now ≡ w.0.now ∷ w.1.now ∷ w.2.now ∷ w.3.now ∷ w.4.now ∷ w.5.now ∷ []) }
{
    let (first, Some(rest)) = first_word(line) else {
        return None;
    };
    let (second, Some(rest)) = first_word(rest) else {
        return None;
    };
    let (third, fourth, fifth, sixth) = four(rest)?;
    Some((first, second, third, fourth, fifth, sixth))
}
