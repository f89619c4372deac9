ghost use Rattle.std.specs.Prelude.{◌≡◌};
ghost use Rattle.net_links.specs.Memory.{LinkState};

use std::marker::Model;
use streams::{MemSink, MemSource};

/// A connection in memory that was hung up, as it stood then.
#[derive(Drop)]
pub struct HungLink {
    source: MemSource,
    sink: MemSink,
}

impl Model for HungLink {
    ghost use Rattle.net_links.specs.Memory.{LinkState};

    ghost Value = { LinkState };

    ghost view = { λ l. record { source = l.source; sink = l.sink } };
}

impl HungLink {
    pub(crate) fn new(source: MemSource, sink: MemSink) -> HungLink
        ensures { result ≡ record { source = source; sink = sink } }
    {
        HungLink { source, sink }
    }

    /// The bytes that were put to it.
    pub fn taken(&self) -> &[u8]
        ensures { result.now ≡ self.now.sink.taken }
    {
        self.sink.bytes()
    }

    /// The bytes that it brought and that weren't taken from it: none exactly where it had ended.
    pub fn left(&self) -> &[u8]
        ensures { result.now ≡ self.now.source.left }
    {
        self.source.bytes()
    }

    /// How many takes were asked of it. The count stops at the end of its type.
    pub fn takes(&self) -> u64
        ensures { result ≡ self.now.source.plan.calls }
    {
        self.source.calls()
    }

    /// How many puts were asked of it. The count stops at the end of its type.
    pub fn puts(&self) -> u64
        ensures { result ≡ self.now.sink.plan.calls }
    {
        self.sink.calls()
    }

    /// How many puts failed since memory was refused. The count stops at the end of its type.
    pub fn starved(&self) -> u64
        ensures { result ≡ self.now.sink.starved }
    {
        self.sink.starved()
    }
}
