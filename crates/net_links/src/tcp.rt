ghost use Rattle.std.specs.Prelude.{[], IfOk};
ghost use Rattle.net_links.specs.Links.{DialHasCause, IfUp, IsNew, IsNoEnd};
ghost use Rattle.net_links.specs.Tcp.{tcp_standing};

use crate::net::{Dialed, Halves, Net};
use std::io::{self, ErrorKind, Read};
use std::net::{
    Ipv4Addr, Net as SystemNet, OpenStream, Shutdown, SocketAddr, SocketAddrV4, TcpListener,
    TcpStream,
};
use streams::{Put, Reading, Sink, Source, Stream, Take, Writing};

/// A stream that shuts its socket down, both ways, as soon as a read finds the end or fails. So the other end sees the close at
/// once, though the link is hung up later.
#[derive(Drop)]
pub struct ClosingStream {
    stream: TcpStream,
}

impl Read for ClosingStream {
    fn read(&mut self, buf: &mut [u8]) -> io::Result<usize> {
        let answer = self.stream.read(buf);
        let goes_on = match &answer {
            Ok(count) => *count > 0 || buf.is_empty(),
            Err(error) => error.kind() == ErrorKind::Interrupted,
        };
        if !goes_on {
            let _ = self.stream.shutdown(Shutdown::Both);
        }
        answer
    }
}

/// A connection of TCP (RFC 9293). It tells nothing but its counts of faults. What it is given goes out at once.
#[derive(Drop)]
pub struct TcpLink {
    from: Reading<ClosingStream>,
    to: Writing<TcpStream>,
}

impl TcpLink {
    /// The link of a stream. An error is the system's.
    pub fn new(stream: TcpStream) -> io::Result<TcpLink>
        ensures { IfOk result (λ link. IsNew (tcp_standing link)) }
    {
        stream.set_nodelay(true)?;
        let other = stream.try_clone()?;
        Ok(TcpLink {
            from: Reading::new(ClosingStream { stream }),
            to: Writing::new(other),
        })
    }
}

impl Stream for TcpLink {
    ghost gives = { λ l. (tcp_standing l).brings };

    ghost takes = { λ l. (tcp_standing l).takes };
}

impl Source for TcpLink {
    fn take(&mut self, buf: &mut [u8]) -> Take {
        self.from.take(buf)
    }
}

impl Sink for TcpLink {
    fn put(&mut self, piece: &[u8]) -> Put {
        self.to.put(piece)
    }
}

impl Halves for TcpLink {
    type From = Reading<ClosingStream>;

    type To = Writing<TcpStream>;

    fn halves(self) -> (Reading<ClosingStream>, Writing<TcpStream>) {
        let TcpLink { from, to } = self;
        (from, to)
    }
}

/// The system's net, on 127.0.0.1 alone. It tells nothing but its count of faults. One without a listener only dials, and no
/// connection comes to it.
#[derive(Drop)]
pub struct TcpNet<'a, R> {
    rt: &'a R,
    listener: Option<TcpListener>,
    faults: u64,
}

// An address of this machine.
fn here(port: u16) -> SocketAddr {
    SocketAddr::V4(SocketAddrV4::new(Ipv4Addr::LOCALHOST, port))
}

impl<'a, R: SystemNet<Listener = TcpListener, Stream = TcpStream>> TcpNet<'a, R> {
    /// A net that listens at a port, or, where that is 0, at one that the system chooses. An error is the system's.
    pub fn listening(rt: &'a R, port: u16) -> io::Result<TcpNet<'a, R>> {
        let listener = TcpListener::bind(rt, here(port))?;
        Ok(TcpNet {
            rt,
            listener: Some(listener),
            faults: 0,
        })
    }

    /// A net that only dials.
    pub fn dialing(rt: &'a R) -> TcpNet<'a, R> {
        TcpNet {
            rt,
            listener: None,
            faults: 0,
        }
    }

    /// The port at which it listens, where it does and the system tells.
    pub fn port(&self) -> Option<u16> {
        let listener = self.listener.as_ref()?;
        let address = listener.local_addr().ok()?;
        Some(address.port())
    }

    // The link of a stream, or a fault more.
    fn up(&mut self, stream: io::Result<TcpStream>) -> Dialed<TcpLink>
        ensures new { IfUp result (λ link. IsNew (tcp_standing link)) }
        ensures answer { IsNoEnd result }
        ensures cause { DialHasCause self.old.faults self.new.faults result }
    {
        let link = match stream {
            Ok(stream) => TcpLink::new(stream),
            Err(error) => Err(error),
        };
        match link {
            Ok(link) => Dialed::Up(link),
            Err(_) => {
                self.faults = self.faults.saturating_add(1);
                Dialed::Failed
            }
        }
    }
}

impl<'a, R: SystemNet<Listener = TcpListener, Stream = TcpStream>> Net for TcpNet<'a, R> {
    type From = Reading<ClosingStream>;

    type To = Writing<TcpStream>;

    type Link = TcpLink;

    ghost Told = { ⊥ };

    ghost coming = { λ _. 0 };

    ghost accepted = { λ _. 0 };

    ghost up = { λ _. 0 };

    ghost hung = { λ _. [] };

    ghost faults = { λ n. n.faults };

    fn accept(&mut self) -> Dialed<TcpLink> {
        let Some(listener) = &self.listener else {
            return Dialed::End;
        };
        let stream = match listener.accept() {
            Ok((stream, _)) => Ok(stream),
            Err(error) => Err(error),
        };
        self.up(stream)
    }

    fn dial(&mut self, port: u16) -> Dialed<TcpLink> {
        let stream = TcpStream::connect(self.rt, here(port));
        self.up(stream)
    }

    fn hang_up(&mut self, from: Reading<ClosingStream>, to: Writing<TcpStream>) {
        let _ = to.into_inner().shutdown(Shutdown::Both);
    }
}
