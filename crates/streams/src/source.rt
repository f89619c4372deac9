ghost use Rattle.std.specs.Prelude.{◌≡◌};
ghost use Rattle.streams.specs.Source.{TakesWithin, TakesBytes, TakeHasCause};

use crate::stream::Stream;

/// What a source answers to one call.
#[derive(Clone, Copy, Debug, PartialEq, Eq)]
pub enum Take {
    /// So many bytes were put at the front of the buffer. None only where the buffer has no room.
    Took(usize),
    /// No byte is left.
    End,
    /// A fault. No byte was taken from the source.
    Failed,
}

/// Where bytes come from, in their order.
pub trait Source: Stream {
    /// Takes bytes from the source into the front of `buf`, as many as the source cares to give. What
    /// it ever gives and the takes that are to fail are the same always, and an object that is a sink
    /// too stands as a sink as before.
    fn take(&mut self, buf: &mut [u8]) -> Take
        ensures within { TakesWithin result buf.new }
        ensures bytes { TakesBytes (Self.gives self.old).left (Self.gives self.new).left result buf.new }
        ensures cause { TakeHasCause (Self.gives self.old).faults (Self.gives self.new).faults result }
        ensures whole { (Self.gives self.new).whole ≡ (Self.gives self.old).whole }
        ensures failing { (Self.gives self.new).failing ≡ (Self.gives self.old).failing }
        ensures puts { Self.takes self.new ≡ Self.takes self.old };
}
