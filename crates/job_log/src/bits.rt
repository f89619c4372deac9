ghost use Rattle.std.specs.Prelude.{◌≡◌, ◌≢◌, ◌-◌, ◌+◌, ◌*◌, ◌^◌, ◌<◌, ◌≤◌, [], OnOk, IfSome, IfNone, length, slice_set, replicate, true, false};
ghost use Rattle.job_log.specs.Bits.{flag, IsFirstFree, HasNoneFree, IsLowestClear};

use outcome::Mem;
use std::alloc::Global;
use std::marker::Model;

/// A row of flags, kept as bits.
#[derive(Drop)]
pub struct Bits {
    words: Vec<u64>,
    len: usize,
}

impl Model for Bits {
    ghost use Rattle.std.specs.Prelude.{length, vec_capacity, ◌*◌, ◌≤◌};
    ghost use Rattle.job_log.specs.Bits.{Flags, seen_flags};

    ghost Value = { Flags };

    ghost view = { λ b. seen_flags b.words.items b.len (vec_capacity b.words) };

    ghost invariant = { λ b. b.len ≤ length b.words.items * 64 };
}

impl Bits {
    /// No flags, and no room.
    pub fn new(alloc: Global) -> Bits
        ensures { result.flags ≡ [] }
    {
        Bits {
            words: Vec::new(alloc),
            len: 0,
        }
    }

    /// Makes room for this many flags.
    pub fn reserve(&mut self, len: usize) -> Mem<()>
        ensures same { self.new.flags ≡ self.old.flags }
        ensures room { OnOk result (len ≤ self.new.room) }
        ensures stays { self.old.room ≤ self.new.room }
    {
        self.words.reserve(len / 64 + 1)?;
        Ok(())
    }

    /// This many flags, none of them set.
    pub fn reset(&mut self, len: usize)
        requires { len ≤ self.old.room }
        ensures cleared { self.new.flags ≡ replicate len false }
        ensures stays { self.old.room ≤ self.new.room }
    {
        self.len = 0;
        self.words.clear();
        self.words.resize(len.div_ceil(64), 0).unwrap();
        self.len = len;
    }

    /// How many flags there are.
    pub fn len(&self) -> usize
        ensures { result ≡ length self.now.flags }
    {
        self.len
    }

    /// Whether the flag at this place is set.
    pub fn get(&self, at: usize) -> bool
        requires { at < length self.now.flags }
        ensures { result ≡ flag self.now.flags at }
    {
        (self.words[at / 64] >> (at % 64)) & 1 == 1
    }

    /// Sets the flag at this place.
    pub fn set(&mut self, at: usize)
        requires { at < length self.old.flags }
        ensures { self.new ≡ record self.old { flags = slice_set self.old.flags at true } }
    {
        self.words[at / 64] |= 1 << (at % 64);
    }

    /// Clears the flag at this place.
    pub fn clear(&mut self, at: usize)
        requires { at < length self.old.flags }
        ensures { self.new ≡ record self.old { flags = slice_set self.old.flags at false } }
    {
        self.words[at / 64] &= !(1 << (at % 64));
    }

    /// The first place that neither row has set, from the word on. It looks at a word at a time.
    pub fn first_free(&self, other: &Bits, word: usize) -> Option<usize>
        requires { length self.now.flags ≡ length other.now.flags }
        ensures found { IfSome result (λ at. IsFirstFree self.now.flags other.now.flags (word * 64) at) }
        ensures none { IfNone result (HasNoneFree self.now.flags other.now.flags (word * 64)) }
    {
        for at in word..self.len.div_ceil(64) {
            let taken = self.words[at] | other.words[at];
            if taken != u64::MAX {
                return within(at * 64 + lowest_clear(taken), self.len);
            }
        }
        None
    }
}

/// The place of the lowest bit of a word that isn't set.
fn lowest_clear(word: u64) -> usize
    requires { word ≢ 2 ^ 64 - 1 }
    ensures { IsLowestClear word result }
{
    word.trailing_ones() as usize
}

/// A place below the end, if it is one.
fn within(at: usize, end: usize) -> Option<usize>
    ensures found { IfSome result (λ place. (place ≡ at) × (at < end)) }
    ensures none { IfNone result (end ≤ at) }
{
    if at < end { Some(at) } else { None }
}
