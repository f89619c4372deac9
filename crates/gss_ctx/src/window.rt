ghost use Rattle.std.specs.Prelude.{◌≡◌, ◌^◌, ◌-◌, ◌<◌};
ghost use Rattle.gss_ctx.specs.Window.{none_seen, is_below, has, noted, seen_of};

use nfs_base::WINDOW_SIZE;
use std::marker::Model;

/// The sequence numbers that a context has seen, as far back as its window reaches (RFC 2203 section
/// 5.3.3.1). Contracts see the greatest, and of each number of the window whether it was seen.
#[derive(Drop)]
pub struct Window {
    greatest: u32,
    bits: u128,
}

impl Model for Window {
    ghost use Rattle.gss_ctx.specs.Window.{Seen, seen_of};

    ghost Value = { Seen };

    ghost view = { λ w. seen_of w.greatest w.bits };
}

impl Window {
    /// No number was seen.
    pub fn new() -> Window
        ensures { result ≡ none_seen }
    {
        Window {
            greatest: 0,
            bits: 0,
        }
    }

    /// Whether a number is less than the greatest seen minus 127.
    pub fn is_below(&self, number: u32) -> bool
        ensures { result ≡ is_below self.now number }
    {
        u64::from(number) + u64::from(WINDOW_SIZE) <= u64::from(self.greatest)
    }

    /// Whether a number was seen and isn't below the window.
    pub fn has(&self, number: u32) -> bool
        ensures { result ≡ has self.now number }
    {
        is_marked(self.greatest, self.bits, number)
    }

    /// Sees a number. The window moves on where it is the greatest.
    pub fn note(&mut self, number: u32)
        ensures { self.new ≡ noted number self.old }
    {
        let (greatest, bits) = after(self.greatest, self.bits, number);
        self.greatest = greatest;
        self.bits = bits;
    }
}

/// Whether the bits have a number.
fn is_marked(greatest: u32, bits: u128, number: u32) -> bool
    ensures { result ≡ has (seen_of greatest bits) number }
{
    if greatest < number {
        return false;
    }
    let back = greatest - number;
    if back >= WINDOW_SIZE {
        return false;
    }
    (bits >> back) % 2 == 1
}

/// The greatest number and the bits once a number is seen.
fn after(greatest: u32, bits: u128, number: u32) -> (u32, u128)
    ensures { seen_of result.0 result.1 ≡ noted number (seen_of greatest bits) }
{
    if greatest < number {
        let by = number - greatest;
        if by < WINDOW_SIZE {
            return (number, (bits << by) | 1);
        }
        return (number, 1);
    }
    let back = greatest - number;
    if back < WINDOW_SIZE {
        return (greatest, bits | (1 << back));
    }
    (greatest, bits)
}
