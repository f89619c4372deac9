ghost use Rattle.std.specs.Prelude.{◌≡◌, ◌+◌, ◌<◌, ◌≤◌, ◌^◌, [], length, IfOk};
ghost use Rattle.wire_xdr.specs.Words.{word_bytes, hyper_bytes, flag_bytes, opaque_bytes};
ghost use Rattle.wire_xdr.specs.Page.{Added};

use crate::octets::Octets;
use crate::writer::zeros_behind;
use outcome::Mem;
use std::alloc::Global;
use std::marker::Model;

/// Room for bytes that is taken at once, so that what is written into it wants no memory. XDR is written
/// into it item by item, as by [`Writer`](crate::Writer).
#[derive(Drop)]
pub struct Page {
    bytes: Vec<u8>,
    room: usize,
}

impl Model for Page {
    ghost use Rattle.std.specs.Prelude.{◌≤◌, vec_capacity};
    ghost use Rattle.wire_xdr.specs.Page.{Written};

    ghost Value = { Written };

    ghost view = { λ p. record { bytes = p.bytes.items; room = p.room } };

    ghost invariant = { λ p. p.room ≤ vec_capacity p.bytes };
}

impl Page {
    /// An empty page with room for so many bytes.
    pub fn new(alloc: Global, room: usize) -> Mem<Page>
        ensures { IfOk result (λ page. page ≡ record { bytes = []; room = room }) }
    {
        Ok(Page {
            bytes: Vec::with_capacity(alloc, room)?,
            room,
        })
    }

    /// The bytes written so far.
    pub fn as_slice(&self) -> &[u8]
        ensures { result.now ≡ self.now.bytes }
    {
        self.bytes.as_slice()
    }

    /// How many bytes were written.
    pub fn len(&self) -> usize
        ensures { result ≡ length self.now.bytes }
    {
        self.bytes.len()
    }

    /// Bytes that are spelled already, as they stand.
    pub fn append(&mut self, bytes: &[u8])
        requires { length self.old.bytes + length bytes.now ≤ self.old.room }
        ensures added { Added self.old bytes.now self.new }
        ensures len { length self.new.bytes ≡ length self.old.bytes + length bytes.now }
    {
        self.bytes.extend_from_slice(bytes).unwrap();
    }

    /// A word (RFC 4506 section 4.2).
    #[tactic(auto, unfolding(crate::specs::Words::word_bytes))]
    pub fn u32(&mut self, v: u32)
        requires { length self.old.bytes + 4 ≤ self.old.room }
        ensures added { Added self.old (word_bytes v) self.new }
        ensures len { length self.new.bytes ≡ length self.old.bytes + 4 }
    {
        self.append(&v.to_be_bytes());
    }

    /// A number of eight bytes (RFC 4506 section 4.5).
    #[tactic(auto, unfolding(crate::specs::Words::hyper_bytes))]
    pub fn u64(&mut self, v: u64)
        requires { length self.old.bytes + 8 ≤ self.old.room }
        ensures added { Added self.old (hyper_bytes v) self.new }
        ensures len { length self.new.bytes ≡ length self.old.bytes + 8 }
    {
        self.append(&v.to_be_bytes());
    }

    /// A bool (RFC 4506 section 4.4).
    #[tactic(auto, unfolding(crate::specs::Words::flag_bytes))]
    pub fn flag(&mut self, v: bool)
        requires { length self.old.bytes + 4 ≤ self.old.room }
        ensures added { Added self.old (flag_bytes v) self.new }
        ensures len { length self.new.bytes ≡ length self.old.bytes + 4 }
    {
        self.u32(if v { 1 } else { 0 });
    }

    /// Bytes behind their length, and their padding (RFC 4506 section 4.10).
    #[tactic(auto, unfolding(crate::specs::Words::opaque_bytes, crate::specs::Words::fixed_bytes))]
    pub fn opaque(&mut self, bytes: &[u8])
        requires short { length bytes.now < 2 ^ 32 }
        requires room { length self.old.bytes + 7 + length bytes.now ≤ self.old.room }
        ensures added { Added self.old (opaque_bytes bytes.now) self.new }
        ensures len { length self.new.bytes ≤ length self.old.bytes + 7 + length bytes.now }
    {
        self.u32(bytes.len() as u32);
        self.append(bytes);
        self.append(zeros_behind(bytes.len()));
    }

    /// What was written.
    pub fn finish(self) -> Octets
        ensures { result ≡ self.bytes }
    {
        let Page { bytes, room: _ } = self;
        Octets::from_vec(bytes)
    }
}
