//! A server over TCP, on this machine.

use crate::memory::tell;
use crate::run::run;
use link_server::Tally;
use net_links::{Dialed, Halves, Net, TcpLink, TcpNet};
use outcome::Mem;
use std::alloc::Global;
use std::fmt::Write;
use std::marker::Sync;
use std::net::{self, TcpListener, TcpStream};
use std::sync::Wait;
use std::thread::{Threads, join};
use streams::{Sink, Source, Take, put_all};

/// A record of four bytes, behind its mark (RFC 5531 section 11).
const RECORD: [u8; 8] = [0x80, 0, 0, 4, 1, 2, 3, 4];

/// How long its reply is, with its mark.
const REPLY_LEN: usize = 9;

/// `CONNS`: so many connections one after another, each of which puts a record and takes its reply. What the server did, and how
/// many replies were right but for the connection's number.
pub fn serve_tcp<R: net::Net<Listener = TcpListener, Stream = TcpStream> + Threads + Wait + Sync>(
    rt: &R,
    alloc: Global,
    conns: u32,
    text: &mut String,
) -> Mem<()> {
    match TcpNet::listening(rt, 0) {
        Ok(net) => serve_net(rt, alloc, conns, net, text),
        Err(_) => Ok(text.push_str("no listener")?),
    }
}

fn serve_net<R: net::Net<Listener = TcpListener, Stream = TcpStream> + Threads + Wait + Sync>(
    rt: &R,
    alloc: Global,
    conns: u32,
    mut net: TcpNet<'_, R>,
    text: &mut String,
) -> Mem<()> {
    let port = net.port().unwrap_or(0);
    let (right, tally) = join(
        rt,
        || ask_all(rt, port, conns),
        || run(rt, alloc, conns, &mut net),
    );
    tell_right(right, &tally, text)
}

fn tell_right(right: u32, tally: &Tally, text: &mut String) -> Mem<()> {
    tell(tally, text)?;
    Ok(write!(text, "; {right} right")?)
}

/// Asks at a port so often, and counts the right replies.
fn ask_all<R: net::Net<Listener = TcpListener, Stream = TcpStream>>(
    rt: &R,
    port: u16,
    conns: u32,
) -> u32 {
    let mut net = TcpNet::dialing(rt);
    let mut right = 0_u32;
    for _ in 0..conns {
        if let Dialed::Up(link) = net.dial(port) {
            right = right.saturating_add(u32::from(asks(link)));
        }
    }
    right
}

/// Puts the record, and takes its reply.
fn asks(link: TcpLink) -> bool {
    let (mut from, mut to) = link.halves();
    put_all(&mut to, &RECORD).is_ok() && is_reply(&mut from)
}

/// Takes a reply, and says whether it is right but for the connection's number.
fn is_reply<F: Source>(from: &mut F) -> bool {
    let mut reply = [0; REPLY_LEN];
    let mut at = 0;
    for _ in 0..REPLY_LEN {
        if at >= REPLY_LEN {
            break;
        }
        match from.take(&mut reply[at..]) {
            Take::Took(count) => at += count,
            Take::End | Take::Failed => return false,
        }
    }
    reply[..4] == [0x80, 0, 0, 5] && reply[5..] == [1, 2, 3, 4]
}
