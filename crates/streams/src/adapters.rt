ghost use Rattle.std.specs.Prelude.{◌≡◌, [], None};
ghost use Rattle.std.specs.Io.{ReadsAtMost, WritesAtMost};
ghost use Rattle.std.specs.Io.KnownBytes.{ReadConsumes, WriteAppends};
ghost use Rattle.streams.specs.Adapters.{reader_of, writer_of, read_faults, write_faults};

use crate::sink::{Put, Sink};
use crate::source::{Source, Take};
use crate::stream::Stream;
use std::io::{self, ErrorKind, Read, Write};

// How often in a row a read or a write is tried again where a signal interrupted it.
const TRIES: u32 = 1_000;

/// A source over a reader of std, as standard input. It tells what the reader tells. A read that a
/// signal interrupts is tried again, up to a thousand times; any other error is a fault.
#[derive(Drop)]
pub struct Reading<R> {
    inner: R,
    faults: u64,
}

impl<R: Read> Reading<R> {
    /// A source that had no fault yet.
    pub fn new(inner: R) -> Reading<R>
        ensures reader { reader_of result ≡ inner }
        ensures faults { read_faults result ≡ 0 }
    {
        Reading { inner, faults: 0 }
    }

    /// How many calls failed. The count stops at the end of its type.
    pub fn faults(&self) -> u64
        ensures { result ≡ read_faults self.now }
    {
        self.faults
    }

    /// The reader, handed back.
    pub fn into_inner(self) -> R
        ensures { result ≡ reader_of self }
    {
        let Reading { inner, faults: _ } = self;
        inner
    }
}

impl<R: Read> Stream for Reading<R> {
    ghost gives = { λ s. record { left = R.remaining (reader_of s); whole = None; faults = read_faults s; failing = [] } };
}

impl<R: Read> Source for Reading<R> {
    fn take(&mut self, buf: &mut [u8]) -> Take {
        if buf.is_empty() {
            return Take::Took(0);
        }
        match read_patiently(&mut self.inner, buf) {
            Ok(0) => Take::End,
            Ok(count) => Take::Took(count),
            Err(_) => {
                self.faults = self.faults.saturating_add(1);
                Take::Failed
            }
        }
    }
}

/// A sink over a writer of std, as standard output. It tells what the writer tells. A write that a
/// signal interrupts is tried again, up to a thousand times; any other error is a fault, and so is a
/// write that takes nothing of a piece with bytes. It never flushes: use a writer without a buffer.
#[derive(Drop)]
pub struct Writing<W> {
    inner: W,
    faults: u64,
}

impl<W: Write> Writing<W> {
    /// A sink that had no fault yet.
    pub fn new(inner: W) -> Writing<W>
        ensures writer { writer_of result ≡ inner }
        ensures faults { write_faults result ≡ 0 }
    {
        Writing { inner, faults: 0 }
    }

    /// How many calls failed. The count stops at the end of its type.
    pub fn faults(&self) -> u64
        ensures { result ≡ write_faults self.now }
    {
        self.faults
    }

    /// The writer, handed back.
    pub fn into_inner(self) -> W
        ensures { result ≡ writer_of self }
    {
        let Writing { inner, faults: _ } = self;
        inner
    }
}

impl<W: Write> Stream for Writing<W> {
    ghost takes = { λ s. record { taken = W.contents (writer_of s); pieces = None; faults = write_faults s; failing = [] } };
}

impl<W: Write> Sink for Writing<W> {
    fn put(&mut self, piece: &[u8]) -> Put {
        if piece.is_empty() {
            return Put::Put(0);
        }
        match write_patiently(&mut self.inner, piece) {
            Ok(count) if count > 0 => Put::Put(count),
            _ => {
                self.faults = self.faults.saturating_add(1);
                Put::Failed
            }
        }
    }
}

// One read, tried again where a signal interrupts it.
fn read_patiently<R: Read>(reader: &mut R, buf: &mut [u8]) -> io::Result<usize>
    ensures bound { ReadsAtMost result buf.new }
    ensures bytes { ReadConsumes (R.remaining reader.old) (R.remaining reader.new) result buf.new }
{
    'tries: for _ in 0..TRIES {
        match reader.read(buf) {
            Err(error) if error.kind() == ErrorKind::Interrupted => {}
            answer => return answer,
        }
    }
    Err(io::Error::from(ErrorKind::Interrupted))
}

// One write, tried again where a signal interrupts it.
fn write_patiently<W: Write>(writer: &mut W, piece: &[u8]) -> io::Result<usize>
    ensures bound { WritesAtMost result piece.now }
    ensures bytes { WriteAppends (W.contents writer.old) (W.contents writer.new) result piece.now }
{
    'tries: for _ in 0..TRIES {
        match writer.write(piece) {
            Err(error) if error.kind() == ErrorKind::Interrupted => {}
            answer => return answer,
        }
    }
    Err(io::Error::from(ErrorKind::Interrupted))
}
