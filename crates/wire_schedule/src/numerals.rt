ghost use Rattle.wire_schedule.specs.Numerals.{byte_of, bytes_of, bytes_from, hex_value, number_below, number_from, number_of, with_digit};
ghost use Rattle.std.specs.Prelude.{◌≡◌, ◌<◌, ◌≤◌, ◌^◌, length, Some, IfOk, IfSome};

use outcome::Mem;
use std::alloc::Global;
use wire_xdr::Octets;

/// The most hexadecimal digits of a word.
const MOST_DIGITS: usize = 131_072;

/// A word as a number: decimal digits, with no sign and no leading zero.
#[tactic(auto, unfolding(crate::specs::Numerals::number_of))]
pub fn number(word: &[u8]) -> Option<u64>
    ensures { result ≡ number_of word.now }
{
    match word {
        [] => None,
        [b'0', _, ..] => None,
        _ => number_from_digits(word),
    }
}

/// A word as a number of 32 bits.
#[tactic(auto, unfolding(crate::specs::Numerals::number_below))]
pub fn number_u32(word: &[u8]) -> Option<u32>
    ensures { result ≡ number_below (2 ^ 32) word.now }
{
    u32::try_from(number(word)?).ok()
}

/// A word as a number of 8 bits.
#[tactic(auto, unfolding(crate::specs::Numerals::number_below))]
pub(crate) fn number_u8(word: &[u8]) -> Option<u8>
    ensures { result ≡ number_below (2 ^ 8) word.now }
{
    u8::try_from(number(word)?).ok()
}

/// The number of these digits.
fn number_from_digits(digits: &[u8]) -> Option<u64>
    ensures { result ≡ number_from 0 digits.now }
{
    let mut n = 0;
    for digit in digits {
        n = with_digit(n, *digit)?;
    }
    Some(n)
}

/// The number with one more digit.
#[tactic(auto, unfolding(crate::specs::Numerals::with_digit))]
fn with_digit(n: u64, byte: u8) -> Option<u64>
    ensures { result ≡ with_digit n byte }
{
    match byte {
        b'0'..=b'9' => n.checked_mul(10)?.checked_add(u64::from(byte - b'0')),
        _ => None,
    }
}

/// A word as bytes: lower-case hexadecimal digits, two for each byte.
#[tactic(auto, unfolding(crate::specs::Numerals::bytes_of))]
pub(crate) fn bytes(alloc: Global, word: &[u8]) -> Mem<Option<Octets>>
    ensures { IfOk result (λ bytes. bytes ≡ bytes_of word.now) }
{
    if word.len() < 2 || word.len() > MOST_DIGITS {
        return Ok(None);
    }
    let mut bytes = Vec::with_capacity(alloc, word.len() / 2)?;
    let mut rest = word;
    while let [first, second, more @ ..] = rest {
        match byte(*first, *second) {
            Some(byte) => bytes.push(byte)?,
            None => return Ok(None),
        }
        rest = more;
    }
    if rest.is_empty() {
        Ok(Some(Octets::from_vec(bytes)))
    } else {
        Ok(None)
    }
}

/// The byte that two digits stand for.
#[tactic(auto, unfolding(crate::specs::Numerals::byte_of))]
fn byte(first: u8, second: u8) -> Option<u8>
    ensures { result ≡ byte_of first second }
{
    Some(16 * hex_value(first)? + hex_value(second)?)
}

/// What a lower-case hexadecimal digit stands for.
#[tactic(auto, unfolding(crate::specs::Numerals::hex_value))]
fn hex_value(digit: u8) -> Option<u8>
    ensures value { result ≡ hex_value digit }
    ensures small { IfSome result (λ value. value < 16) }
{
    match digit {
        b'0'..=b'9' => Some(digit - b'0'),
        b'a'..=b'f' => Some(digit - b'a' + 10),
        _ => None,
    }
}
