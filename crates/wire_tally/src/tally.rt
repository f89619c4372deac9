ghost use Rattle.std.specs.Prelude.{◌≡◌};
ghost use Rattle.wire_tally.specs.Tally.{amount, digit_next};

/// What a transcript says of the copies in it.
#[derive(Clone, Copy, PartialEq, Eq)]
pub struct Tally {
    /// Lines `stable J`: the client learnt that its copy is stable at the destination.
    pub stable: u128,

    /// Lines `exact J`: the source file's change attribute stood still over the whole copy.
    pub exact: u128,

    /// Bytes of the chunks that landed: each line `landed J OFF LEN` adds LEN.
    pub landed: u128,
}

impl Tally {
    ghost use Rattle.std.specs.Prelude.{◌≡◌, ◌+◌, ◌*◌, ◌^◌, ◌<◌, length};
    ghost use Rattle.wire_tally.specs.Tally.{by_line, no_tally, tallied};

    /// Nothing is counted yet.
    pub fn new() -> Tally
        ensures { result ≡ no_tally }
    {
        Tally {
            stable: 0,
            exact: 0,
            landed: 0,
        }
    }

    /// Counts the lines of a text. What stands behind its last newline is no line, and isn't counted.
    pub fn add(&mut self, text: &[u8])
        requires stable { self.old.stable + length text.now < 2 ^ 128 }
        requires exact { self.old.exact + length text.now < 2 ^ 128 }
        requires landed { self.old.landed + length text.now * 2 ^ 32 < 2 ^ 128 }
        ensures { self.new ≡ tallied text.now self.old }
    {
        let mut start = 0;
        for (at, byte) in text.iter().enumerate() {
            if *byte == b'\n' {
                self.add_line(&text[start..at]);
                start = at + 1;
            }
        }
    }

    /// Counts a line, which is given without its newline.
    #[tactic(auto, unfolding(crate::specs::Tally::by_line))]
    fn add_line(&mut self, line: &[u8])
        requires stable { self.old.stable + 1 < 2 ^ 128 }
        requires exact { self.old.exact + 1 < 2 ^ 128 }
        requires landed { self.old.landed + 2 ^ 32 < 2 ^ 128 }
        ensures { self.new ≡ by_line line.now self.old }
    {
        if line.starts_with(b"stable ") {
            self.stable += 1;
        } else if line.starts_with(b"exact ") {
            self.exact += 1;
        } else if line.starts_with(b"landed ") {
            self.landed += u128::from(amount(line));
        }
    }
}

/// The number behind the last space of a line, or 0.
#[tactic(auto, unfolding(crate::specs::Tally::amount))]
fn amount(line: &[u8]) -> u32
    ensures { result ≡ amount line.now }
{
    let mut so_far = None;
    for byte in line {
        so_far = digit_next(so_far, *byte);
    }
    so_far.unwrap_or(0)
}

/// What a word spells with one more byte.
#[tactic(auto, unfolding(crate::specs::Tally::digit_next))]
fn digit_next(so_far: Option<u32>, byte: u8) -> Option<u32>
    ensures { result ≡ digit_next so_far byte }
{
    match byte {
        b' ' => Some(0),
        b'0'..=b'9' => so_far?.checked_mul(10)?.checked_add(u32::from(byte - b'0')),
        _ => None,
    }
}
