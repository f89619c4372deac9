//! The links to both servers: they are dialed, and hung up.

ghost use Rattle.std.specs.Prelude.{◌≡◌, ◌≤◌, ◌<◌, ◌∷◌, [], IfSome, IfNone};
ghost use Rattle.net_links.specs.Links.{IsNew};
ghost use Rattle.outcome.specs.Causes.{Rose};
ghost use Rattle.linked_copy.specs.Nets.{books_of, Dials, HangsUp, Unpaired};

use crate::dialed_link::DialedLink;
use net_links::{Dialed, Halves, Net};
use streams::{Sink, Source};

/// The links to both servers.
#[derive(Drop)]
pub(crate) struct LinkPair<F: Source, T: Sink> {
    pub(crate) source: DialedLink<F, T>,
    pub(crate) dest: DialedLink<F, T>,
}

/// Dials both servers, the source first. None: a dial failed, and the link that was dialed before is hung up.
pub(crate) fn dial_both<F: Source + Drop, T: Sink + Drop, N: Net<From = F, To = T>>(
    source_port: u16,
    dest_port: u16,
    net: &mut N,
) -> Option<LinkPair<F, T>>
    ensures source { IfSome result (λ pair. IsNew pair.source) }
    ensures dest { IfSome result (λ pair. IsNew pair.dest) }
    ensures dials { IfSome result (λ _. N.Told → Dials 2 (books_of N.coming N.accepted N.up N.hung net.old) (books_of N.coming N.accepted N.up N.hung net.new)) }
    ensures fault { IfNone result (Rose (N.faults net.old) (N.faults net.new)) }
    ensures none { IfNone result (Unpaired N.Told (books_of N.coming N.accepted N.up N.hung net.old) (books_of N.coming N.accepted N.up N.hung net.new)) }
    ensures later { N.faults net.old ≤ N.faults net.new }
{
    let source = dial(source_port, net)?;
    match dial(dest_port, net) {
        Some(dest) => Some(LinkPair { source, dest }),
        None => {
            hang_up(source, net);
            None
        }
    }
}

/// Hangs both links up, the source's first.
pub(crate) fn hang_both<F: Source + Drop, T: Sink + Drop, N: Net<From = F, To = T>>(
    pair: LinkPair<F, T>,
    net: &mut N,
)
    requires up { N.Told → 2 ≤ N.up net.old }
    ensures hung { N.Told → HangsUp (pair.source ∷ pair.dest ∷ []) (books_of N.coming N.accepted N.up N.hung net.old) (books_of N.coming N.accepted N.up N.hung net.new) }
    ensures faults { N.faults net.new ≡ N.faults net.old }
{
    hang_up(pair.source, net);
    hang_up(pair.dest, net);
}

/// Dials a port. None: the dial failed.
fn dial<F: Source + Drop, T: Sink + Drop, N: Net<From = F, To = T>>(
    port: u16,
    net: &mut N,
) -> Option<DialedLink<F, T>>
    ensures new { IfSome result IsNew }
    ensures dials { IfSome result (λ _. N.Told → Dials 1 (books_of N.coming N.accepted N.up N.hung net.old) (books_of N.coming N.accepted N.up N.hung net.new)) }
    ensures fault { IfNone result (Rose (N.faults net.old) (N.faults net.new)) }
    ensures none { IfNone result (N.Told → books_of N.coming N.accepted N.up N.hung net.new ≡ books_of N.coming N.accepted N.up N.hung net.old) }
    ensures later { N.faults net.old ≤ N.faults net.new }
{
    match net.dial(port) {
        Dialed::Up(link) => {
            let (from, to) = link.halves();
            Some(DialedLink::new(from, to))
        }
        Dialed::End | Dialed::Failed => None,
    }
}

/// Hangs a link up.
fn hang_up<F: Source + Drop, T: Sink + Drop, N: Net<From = F, To = T>>(
    link: DialedLink<F, T>,
    net: &mut N,
)
    requires up { N.Told → 0 < N.up net.old }
    ensures hung { N.Told → HangsUp (link ∷ []) (books_of N.coming N.accepted N.up N.hung net.old) (books_of N.coming N.accepted N.up N.hung net.new) }
    ensures faults { N.faults net.new ≡ N.faults net.old }
{
    let (from, to) = link.halves();
    net.hang_up(from, to);
}
