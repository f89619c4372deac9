ghost use Rattle.std.specs.Prelude.{◌≡◌};
ghost use Rattle.streams.specs.Stream.{with_piece};
ghost use Rattle.streams.specs.Sink.{PutsWithin, PutsBytes, PutHasCause};

use crate::stream::Stream;

/// What a sink answers to one call.
#[derive(Clone, Copy, Debug, PartialEq, Eq)]
pub enum Put {
    /// So many bytes were taken, from the front of the piece. None only where the piece is empty.
    Put(usize),
    /// A fault. No byte was taken.
    Failed,
}

/// Where bytes go, in their order.
pub trait Sink: Stream {
    /// Gives the sink a piece, of which it takes as many bytes from the front as it cares to. The puts
    /// that are to fail are the same always, and an object that is a source too stands as a source as
    /// before.
    fn put(&mut self, piece: &[u8]) -> Put
        ensures within { PutsWithin result piece.now }
        ensures bytes { PutsBytes (Self.takes self.old).taken (Self.takes self.new).taken result piece.now }
        ensures pieces { (Self.takes self.new).pieces ≡ with_piece (Self.takes self.old).pieces piece.now }
        ensures cause { PutHasCause (Self.takes self.old).faults (Self.takes self.new).faults result }
        ensures failing { (Self.takes self.new).failing ≡ (Self.takes self.old).failing }
        ensures takes { Self.gives self.new ≡ Self.gives self.old };
}
