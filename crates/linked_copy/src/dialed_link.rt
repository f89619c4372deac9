ghost use Rattle.std.specs.Prelude.{◌≡◌};

use std::marker::Model;
use streams::{Put, Sink, Source, Stream, Take};

/// A link that was dialed: a way from the other end and one to it. Contracts see it as the two stand.
#[derive(Drop)]
pub(crate) struct DialedLink<F: Source, T: Sink> {
    from: F,
    to: T,
}

impl<F: Source, T: Sink> Model for DialedLink<F, T> {
    ghost use Rattle.net_links.specs.Links.{Standing};

    ghost Value = { Standing };

    ghost view = { λ l. record { brings = F.gives l.from; takes = T.takes l.to } };
}

impl<F: Source, T: Sink> DialedLink<F, T> {
    /// The link of these two ways.
    pub(crate) fn new(from: F, to: T) -> DialedLink<F, T>
        ensures { result ≡ record { brings = F.gives from; takes = T.takes to } }
    {
        DialedLink { from, to }
    }

    /// Its two ways.
    pub(crate) fn halves(self) -> (F, T)
        ensures from { F.gives result.0 ≡ self.brings }
        ensures to { T.takes result.1 ≡ self.takes }
    {
        let DialedLink { from, to } = self;
        (from, to)
    }
}

impl<F: Source, T: Sink> Stream for DialedLink<F, T> {
    ghost gives = { λ l. l.brings };

    ghost takes = { λ l. l.takes };
}

impl<F: Source, T: Sink> Source for DialedLink<F, T> {
    fn take(&mut self, buf: &mut [u8]) -> Take {
        self.from.take(buf)
    }
}

impl<F: Source, T: Sink> Sink for DialedLink<F, T> {
    fn put(&mut self, piece: &[u8]) -> Put {
        self.to.put(piece)
    }
}
