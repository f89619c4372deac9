ghost use Rattle.std.specs.Prelude.{◌≡◌, ℕ, ◌<◌, ◌≤◌, ◌^◌, List, [], length, take, replicate, OnOk, OnErr, IfOk, IsOk};
ghost use Rattle.std.specs.Int.{w64};
ghost use Rattle.wire_xdr.specs.Words.{padding, word_bytes, hyper_bytes, signed_bytes, flag_bytes, fixed_bytes, opaque_bytes};
ghost use Rattle.wire_xdr.specs.Cursor.{Appends};

use crate::octets::Octets;
use crate::reader::padding_of;
use outcome::{Mem, NoMemory};
use std::alloc::Global;
use std::marker::Model;

/// Writes XDR, item by item (RFC 4506). Contracts see the bytes written. Without memory they stay as
/// they were before the call.
#[derive(Drop)]
pub struct Writer {
    bytes: Vec<u8>,
}

impl Model for Writer {
    ghost Value = { List ℕ };

    ghost view = { λ w. w.bytes.items };
}

/// The zeros that stand behind `n` bytes.
pub(crate) fn zeros_behind(n: usize) -> &'static [u8]
    ensures zeros { result.now ≡ replicate (padding n) 0 }
    ensures few { length result.now ≤ 3 }
{
    match padding_of(n) {
        0 => &[],
        1 => &[0],
        2 => &[0, 0],
        _ => &[0, 0, 0],
    }
}

/// The room that a writer begins with, in bytes.
const ROOM: usize = 256;

impl Writer {
    /// A writer that has written nothing.
    pub fn new(alloc: Global) -> Mem<Writer>
        ensures { IfOk result (λ writer. writer ≡ []) }
    {
        Ok(Writer {
            bytes: Vec::with_capacity(alloc, ROOM)?,
        })
    }

    /// The bytes written so far.
    pub fn as_slice(&self) -> &[u8]
        ensures { result.now ≡ self.now }
    {
        self.bytes.as_slice()
    }

    /// Bytes that are spelled already, as they stand.
    pub fn append(&mut self, bytes: &[u8]) -> Mem<()>
        ensures ok { OnOk result (Appends self.old bytes.now self.new) }
        ensures err { OnErr result (self.new ≡ self.old) }
    {
        self.bytes.extend_from_slice(bytes)?;
        Ok(())
    }

    /// Nothing (RFC 4506 section 4.16). It takes no memory.
    pub fn void(&mut self) -> Mem<()>
        ensures ok { OnOk result (Appends self.old [] self.new) }
        ensures always { IsOk result }
    {
        Ok(())
    }

    /// A word (RFC 4506 section 4.2).
    #[tactic(auto, unfolding(crate::specs::Words::word_bytes))]
    pub fn u32(&mut self, v: u32) -> Mem<()>
        ensures ok { OnOk result (Appends self.old (word_bytes v) self.new) }
        ensures err { OnErr result (self.new ≡ self.old) }
    {
        self.append(&v.to_be_bytes())
    }

    /// A number of eight bytes (RFC 4506 section 4.5).
    #[tactic(auto, unfolding(crate::specs::Words::hyper_bytes))]
    pub fn u64(&mut self, v: u64) -> Mem<()>
        ensures ok { OnOk result (Appends self.old (hyper_bytes v) self.new) }
        ensures err { OnErr result (self.new ≡ self.old) }
    {
        self.append(&v.to_be_bytes())
    }

    /// A signed number of eight bytes (RFC 4506 section 4.5).
    #[tactic(auto, unfolding(crate::specs::Words::signed_bytes))]
    pub fn i64(&mut self, v: i64) -> Mem<()>
        ensures ok { OnOk result (Appends self.old (signed_bytes v) self.new) }
        ensures err { OnErr result (self.new ≡ self.old) }
    {
        self.u64(v.cast_unsigned())
    }

    /// A bool (RFC 4506 section 4.4).
    #[tactic(auto, unfolding(crate::specs::Words::flag_bytes))]
    pub fn flag(&mut self, v: bool) -> Mem<()>
        ensures ok { OnOk result (Appends self.old (flag_bytes v) self.new) }
        ensures err { OnErr result (self.new ≡ self.old) }
    {
        self.u32(if v { 1 } else { 0 })
    }

    /// A field of bytes and its padding (RFC 4506 section 4.9).
    #[tactic(auto, unfolding(crate::specs::Words::fixed_bytes))]
    pub fn fixed(&mut self, bytes: &[u8]) -> Mem<()>
        ensures ok { OnOk result (Appends self.old (fixed_bytes bytes.now) self.new) }
        ensures err { OnErr result (self.new ≡ self.old) }
    {
        let start = self.bytes.len();
        self.bytes.extend_from_slice(bytes)?;
        match self.bytes.extend_from_slice(zeros_behind(bytes.len())) {
            Ok(()) => Ok(()),
            Err(_) => {
                self.bytes.truncate(start);
                Err(NoMemory)
            }
        }
    }

    /// Bytes behind their length (RFC 4506 section 4.10).
    #[tactic(auto, unfolding(crate::specs::Words::opaque_bytes))]
    pub fn opaque(&mut self, bytes: &[u8]) -> Mem<()>
        requires { length bytes.now < 2 ^ 32 }
        ensures ok { OnOk result (Appends self.old (opaque_bytes bytes.now) self.new) }
        ensures err { OnErr result (self.new ≡ self.old) }
    {
        let start = self.bytes.len();
        self.u32(bytes.len() as u32)?;
        match self.fixed(bytes) {
            Ok(()) => Ok(()),
            Err(refused) => {
                self.bytes.truncate(start);
                Err(refused)
            }
        }
    }

    /// What was written.
    pub fn finish(self) -> Octets
        ensures { result ≡ self }
    {
        let Writer { bytes } = self;
        Octets::from_vec(bytes)
    }
}
