ghost use Rattle.std.specs.Prelude.{◌≡◌, ℕ, ◌-◌, ◌%◌, ◌≤◌, length, drop, position};
ghost use Rattle.std.specs.Int.{w32, w64};
ghost use Rattle.wire_xdr.specs.Cursor.{Cursor, IsBytes, Takes};
ghost use Rattle.wire_xdr.specs.Words.{number_at, signed_at, flag_at, count_at, padding, is_nonzero, fixed_at, opaque_at};

use crate::fault::XdrFault;
use std::marker::Model;

/// Reads XDR from a slice of bytes, item by item (RFC 4506). Contracts see where it stands, as a
/// `Cursor`: the bytes passed and those left. No call of it takes memory, and a refused one leaves it
/// where it stood.
#[derive(Drop)]
pub struct Reader<'a> {
    all: &'a [u8],
    at: usize,
}

impl<'a> Model for Reader<'a> {
    ghost Value = { Cursor };

    ghost view = { λ r. record { at = r.at; rest = drop r.at r.all.now } };

    ghost invariant = { λ r. r.at ≤ length r.all.now };
}

/// How many zeros stand behind `n` bytes.
pub(crate) fn padding_of(n: usize) -> usize
    ensures { result ≡ padding n }
{
    (4 - n % 4) % 4
}

/// Fewer bytes are left than are needed.
fn short(need: u64, rest: &[u8]) -> XdrFault
    ensures { result ≡ XdrFault.Short need (length rest.now) }
{
    XdrFault::Short {
        need,
        have: rest.len() as u64,
    }
}

/// The bytes from a place on.
fn bytes_from(all: &[u8], at: usize) -> &[u8]
    requires { at ≤ length all.now }
    ensures rest { result.now ≡ drop at all.now }
    ensures bytes { IsBytes result.now }
{
    &all[at..]
}

/// Where the first byte stands that isn't zero.
fn first_nonzero(bytes: &[u8]) -> Option<usize>
    ensures { result ≡ position is_nonzero bytes.now }
{
    bytes.iter().position(|byte| *byte != 0)
}

impl<'a> Reader<'a> {
    /// A reader at the first of the bytes.
    pub fn new(bytes: &'a [u8]) -> Reader<'a>
        ensures start { result.at ≡ 0 }
        ensures bytes { result.rest ≡ bytes.now }
    {
        Reader { all: bytes, at: 0 }
    }

    /// A second reader that stands where this one stands.
    pub fn again(&self) -> Reader<'a>
        ensures { result ≡ self.now }
    {
        Reader {
            all: self.all,
            at: self.at,
        }
    }

    /// The bytes that are left.
    pub fn rest(&self) -> &'a [u8]
        ensures rest { result.now ≡ self.now.rest }
        ensures bytes { IsBytes result.now }
    {
        bytes_from(self.all, self.at)
    }

    /// How many bytes were read since the first.
    pub fn at(&self) -> usize
        ensures { result ≡ self.now.at }
    {
        self.at
    }

    /// A word (RFC 4506 section 4.2).
    pub fn u32(&mut self) -> Result<u32, XdrFault>
        ensures { Takes (λ n. n) result self.old self.new (number_at w32 self.old) }
    {
        let rest = self.rest();
        if rest.len() < 4 {
            return Err(short(4, rest));
        }
        self.at += 4;
        Ok(u32::from_be_bytes([rest[0], rest[1], rest[2], rest[3]]))
    }

    /// A number of eight bytes (RFC 4506 section 4.5).
    pub fn u64(&mut self) -> Result<u64, XdrFault>
        ensures { Takes (λ n. n) result self.old self.new (number_at w64 self.old) }
    {
        let rest = self.rest();
        if rest.len() < 8 {
            return Err(short(8, rest));
        }
        self.at += 8;
        Ok(u64::from_be_bytes([
            rest[0], rest[1], rest[2], rest[3], rest[4], rest[5], rest[6], rest[7],
        ]))
    }

    /// A signed number of eight bytes (RFC 4506 section 4.5).
    pub fn i64(&mut self) -> Result<i64, XdrFault>
        ensures { Takes (λ z. z) result self.old self.new (signed_at self.old) }
    {
        Ok(self.u64()?.cast_signed())
    }

    /// A bool (RFC 4506 section 4.4).
    pub fn flag(&mut self) -> Result<bool, XdrFault>
        ensures { Takes (λ b. b) result self.old self.new (flag_at self.old) }
    {
        let mut next = self.again();
        let value = next.u32()?;
        if value > 1 {
            return Err(XdrFault::BadFlag { value });
        }
        *self = next;
        Ok(value == 1)
    }

    /// A length or a count, at most `max`.
    pub fn count(&mut self, max: u32) -> Result<u32, XdrFault>
        ensures { Takes (λ n. n) result self.old self.new (count_at max self.old) }
    {
        let mut next = self.again();
        let len = next.u32()?;
        if len > max {
            return Err(XdrFault::TooLong { len, max });
        }
        *self = next;
        Ok(len)
    }

    /// A field of `n` bytes, behind which its padding stands (RFC 4506 section 4.9).
    pub fn fixed(&mut self, n: usize) -> Result<&'a [u8], XdrFault>
        ensures { Takes (λ bytes. bytes.now) result self.old self.new (fixed_at n self.old) }
    {
        let rest = self.rest();
        let zeros = padding_of(n);
        if rest.len() < n || rest.len() - n < zeros {
            return Err(short((n as u64).saturating_add(zeros as u64), rest));
        }
        let (bytes, after) = rest.split_at(n);
        if let Some(k) = first_nonzero(&after[..zeros]) {
            return Err(XdrFault::BadPad {
                at: self.at + n + k,
            });
        }
        self.at += n + zeros;
        Ok(bytes)
    }

    /// Bytes behind their length, which is at most `max` (RFC 4506 section 4.10).
    #[tactic(auto, unfolding(crate::specs::Words::opaque_at))]
    pub fn opaque(&mut self, max: u32) -> Result<&'a [u8], XdrFault>
        ensures { Takes (λ bytes. bytes.now) result self.old self.new (opaque_at max self.old) }
    {
        let mut next = self.again();
        let len = next.count(max)?;
        let bytes = next.fixed(len as usize)?;
        *self = next;
        Ok(bytes)
    }
}
