ghost use Rattle.std.specs.Prelude.{◌≡◌, ℕ, ◌+◌, ◌<◌, ◌≤◌, List};
ghost use Rattle.net_links.specs.Links.{Standing, IsNew, IfUp, ups, Accepts, IsNoEnd, DialHasCause, HangsUp};

use streams::{Sink, Source};

/// What a net answers where a link is asked for.
#[derive(Drop)]
pub enum Dialed<L> {
    /// A link, up.
    Up(L),
    /// No connection is left to be accepted.
    End,
    /// A fault.
    Failed,
}

/// A link of one connection, whose two ways can be taken apart.
pub trait Halves: Source + Sink {
    /// The way from the other end.
    type From: Source + Drop;

    /// The way to the other end.
    type To: Sink + Drop;

    /// The two ways, each standing as the link does.
    fn halves(self) -> (Self::From, Self::To)
        ensures from { Self.From.gives result.0 ≡ Self.gives self }
        ensures to { Self.To.takes result.1 ≡ Self.takes self };
}

/// Where links come from. Whether a net tells of its links is a matter of its type.
pub trait Net {
    /// The way from the other end of a link.
    type From: Source + Drop;

    /// The way to the other end of a link.
    type To: Sink + Drop;

    /// A link of one connection.
    type Link: Halves<From = Self::From, To = Self::To>;

    // The net tells of its links.
    ghost Told: { Type 0 };

    // How many connections are left to be accepted, where told.
    ghost coming: { Self → ℕ };

    // How many were accepted, where told.
    ghost accepted: { Self → ℕ };

    // How many links are up: those that were accepted or dialed and weren't hung up, where told.
    ghost up: { Self → ℕ };

    // The links that were hung up, in that order, as they stood then, where told.
    ghost hung: { Self → List Standing };

    // How many calls failed. The count stops at the end of its type.
    ghost faults: { Self → ℕ };

    /// Accepts the next connection. The end is answered exactly where none is left.
    fn accept(&mut self) -> Dialed<Self::Link>
        ensures new { IfUp result (λ link. IsNew (record { brings = Self.Link.gives link; takes = Self.Link.takes link })) }
        ensures coming { Told → Accepts (coming self.old) (coming self.new) result }
        ensures accepted { Told → accepted self.new ≡ accepted self.old + ups result }
        ensures up { Told → up self.new ≡ up self.old + ups result }
        ensures hung { Told → hung self.new ≡ hung self.old }
        ensures cause { DialHasCause (faults self.old) (faults self.new) result };

    /// Connects to a port of this machine.
    fn dial(&mut self, port: u16) -> Dialed<Self::Link>
        ensures new { IfUp result (λ link. IsNew (record { brings = Self.Link.gives link; takes = Self.Link.takes link })) }
        ensures answer { IsNoEnd result }
        ensures coming { Told → coming self.new ≡ coming self.old }
        ensures accepted { Told → accepted self.new ≡ accepted self.old }
        ensures up { Told → up self.new ≡ up self.old + ups result }
        ensures hung { Told → hung self.new ≡ hung self.old }
        ensures cause { DialHasCause (faults self.old) (faults self.new) result };

    /// Hangs a link of this net up, whose ways are these.
    fn hang_up(&mut self, from: Self::From, to: Self::To)
        requires { Told → 0 < up self.old }
        ensures hung { Told → HangsUp (hung self.old) (hung self.new) (record { brings = Self.From.gives from; takes = Self.To.takes to }) }
        ensures up { Told → up self.old ≡ up self.new + 1 }
        ensures coming { Told → coming self.new ≡ coming self.old }
        ensures accepted { Told → accepted self.new ≡ accepted self.old }
        ensures faults { faults self.new ≡ faults self.old };
}
