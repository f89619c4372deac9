ghost use Rattle.std.specs.Prelude.{◌≡◌};
ghost use Rattle.net_links.specs.Links.{IsNew};
ghost use Rattle.net_links.specs.Memory.{giving, taking, link_of, standing};

use crate::net::Halves;
use std::alloc::Global;
use std::marker::Model;
use streams::{MemSink, MemSource, Put, Sink, Source, Stream, Take};

/// A connection that is to come: the bytes that it brings, and the numbers of its takes and of its puts that are to fail, in any
/// order. The first call of each kind is number 1.
#[derive(Drop)]
pub struct Connection {
    pub bytes: Vec<u8>,
    pub takes: Vec<u64>,
    pub puts: Vec<u64>,
}

impl Model for Connection {
    ghost use Rattle.net_links.specs.Memory.{Coming};

    ghost Value = { Coming };

    ghost view = { λ c. record { bytes = c.bytes.items; takes = c.takes.items; puts = c.puts.items } };
}

/// A connection in memory, made of the bytes that it brings. It tells them, and the bytes that it takes. Its takes and puts fail
/// at planned calls, and a put fails where memory is refused too.
#[derive(Drop)]
pub struct MemLink {
    source: MemSource,
    sink: MemSink,
}

impl Model for MemLink {
    ghost use Rattle.net_links.specs.Memory.{LinkState};

    ghost Value = { LinkState };

    ghost view = { λ l. record { source = l.source; sink = l.sink } };
}

impl MemLink {
    /// The link of a connection.
    pub fn new(alloc: Global, connection: Connection) -> MemLink
        ensures is { result ≡ link_of connection }
        ensures new { IsNew (standing result) }
    {
        let Connection { bytes, takes, puts } = connection;
        MemLink {
            source: MemSource::new(bytes, takes),
            sink: MemSink::new(alloc, puts),
        }
    }
}

impl Stream for MemLink {
    ghost gives = { λ l. giving l.source };

    ghost takes = { λ l. taking l.sink };
}

impl Source for MemLink {
    fn take(&mut self, buf: &mut [u8]) -> Take {
        self.source.take(buf)
    }
}

impl Sink for MemLink {
    fn put(&mut self, piece: &[u8]) -> Put {
        self.sink.put(piece)
    }
}

impl Halves for MemLink {
    type From = MemSource;

    type To = MemSink;

    fn halves(self) -> (MemSource, MemSink)
        ensures { result ≡ (self.source, self.sink) }
    {
        let MemLink { source, sink } = self;
        (source, sink)
    }
}
