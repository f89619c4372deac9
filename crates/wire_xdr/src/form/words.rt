//! Numbers, bools and fields of bytes.

ghost use Rattle.std.specs.Prelude.{◌≡◌, ◌<◌, ◌^◌, length, OnOk};
ghost use Rattle.wire_xdr.specs.Cursor.{Appends};
ghost use Rattle.wire_xdr.specs.Words.{opaque_bytes};
ghost use Rattle.wire_xdr.specs.WordReads.{count_read, opaque_read, between_read};
ghost use Rattle.wire_xdr.specs.Forms.{word, hyper, signed, flag, fixed};
ghost use Rattle.wire_xdr.specs.Reads.{Reads};

use crate::form::bad::ReadError;
use crate::form::xdr::Xdr;
use crate::octets::Octets;
use crate::reader::Reader;
use crate::writer::Writer;
use outcome::Mem;
use std::alloc::Global;

impl Xdr for u32 {
    ghost form = { word };

    #[tactic(auto, unfolding(crate::specs::WordReads::word_read))]
    fn parse(_alloc: Global, reader: &mut Reader) -> Result<u32, ReadError> {
        let start = reader.at();
        match reader.u32() {
            Ok(value) => Ok(value),
            Err(fault) => Err(ReadError::of_fault(start, fault)),
        }
    }

    fn put(&self, writer: &mut Writer) -> Mem<()> {
        writer.u32(*self)
    }
}

impl Xdr for u64 {
    ghost form = { hyper };

    #[tactic(auto, unfolding(crate::specs::WordReads::hyper_read))]
    fn parse(_alloc: Global, reader: &mut Reader) -> Result<u64, ReadError> {
        let start = reader.at();
        match reader.u64() {
            Ok(value) => Ok(value),
            Err(fault) => Err(ReadError::of_fault(start, fault)),
        }
    }

    fn put(&self, writer: &mut Writer) -> Mem<()> {
        writer.u64(*self)
    }
}

impl Xdr for i64 {
    ghost form = { signed };

    #[tactic(auto, unfolding(crate::specs::WordReads::signed_read))]
    fn parse(_alloc: Global, reader: &mut Reader) -> Result<i64, ReadError> {
        let start = reader.at();
        match reader.i64() {
            Ok(value) => Ok(value),
            Err(fault) => Err(ReadError::of_fault(start, fault)),
        }
    }

    fn put(&self, writer: &mut Writer) -> Mem<()> {
        writer.i64(*self)
    }
}

impl Xdr for bool {
    ghost form = { flag };

    #[tactic(auto, unfolding(crate::specs::WordReads::flag_read))]
    fn parse(_alloc: Global, reader: &mut Reader) -> Result<bool, ReadError> {
        let start = reader.at();
        match reader.flag() {
            Ok(value) => Ok(value),
            Err(fault) => Err(ReadError::of_fault(start, fault)),
        }
    }

    fn put(&self, writer: &mut Writer) -> Mem<()> {
        writer.flag(*self)
    }
}

impl<const N: usize> Xdr for [u8; N] {
    ghost form = { fixed N };

    #[tactic(auto, unfolding(crate::specs::WordReads::fixed_read))]
    fn parse(_alloc: Global, reader: &mut Reader) -> Result<[u8; N], ReadError> {
        let start = reader.at();
        match reader.fixed(N) {
            Ok(bytes) => {
                let mut field = [0; N];
                field.copy_from_slice(bytes);
                Ok(field)
            }
            Err(fault) => Err(ReadError::of_fault(start, fault)),
        }
    }

    fn put(&self, writer: &mut Writer) -> Mem<()> {
        writer.fixed(self)
    }
}

/// A count, at most `max`.
#[tactic(auto, unfolding(crate::specs::WordReads::count_read))]
pub fn parse_count(reader: &mut Reader, max: u32) -> Result<u32, ReadError>
    ensures { Reads result reader.new (count_read max reader.old) }
{
    let start = reader.at();
    match reader.count(max) {
        Ok(count) => Ok(count),
        Err(fault) => Err(ReadError::of_fault(start, fault)),
    }
}

impl Octets {
    /// Reads bytes behind their length, which is at most `max`: the form `opaque max`.
    #[tactic(auto, unfolding(crate::specs::WordReads::opaque_read))]
    pub fn parse(alloc: Global, reader: &mut Reader, max: u32) -> Result<Octets, ReadError>
        ensures { Reads result reader.new (opaque_read max reader.old) }
    {
        let start = reader.at();
        match reader.opaque(max) {
            Ok(bytes) => Ok(Octets::from_slice(alloc, bytes)?),
            Err(fault) => Err(ReadError::of_fault(start, fault)),
        }
    }

    /// Reads bytes behind their length, which is at least `min` and at most `max`: the form
    /// `opaque_between min max`.
    #[tactic(auto, unfolding(crate::specs::WordReads::between_read))]
    pub fn parse_between(
        alloc: Global,
        reader: &mut Reader,
        min: u32,
        max: u32,
    ) -> Result<Octets, ReadError>
        ensures { Reads result reader.new (between_read min max reader.old) }
    {
        let start = reader.at();
        let mut ahead = reader.again();
        if parse_count(&mut ahead, max)? < min {
            return Err(ReadError::at(start));
        }
        Octets::parse(alloc, reader, max)
    }

    /// Writes the bytes behind their length. Without memory a part may be written.
    pub fn put(&self, writer: &mut Writer) -> Mem<()>
        requires { length self.now < 2 ^ 32 }
        ensures { OnOk result (Appends writer.old (opaque_bytes self.now) writer.new) }
    {
        writer.opaque(self.as_slice())
    }
}
