//! Dials of a net in memory.

use crate::memory::numbers;
use net_links::{Connection, Dial, Dialed, MemLink, MemNet, Net};
use outcome::Mem;
use row_text::word;
use std::alloc::Global;
use std::collections::VecDeque;
use std::fmt::Write;
use streams::{Source, Take};

/// `FAILS PORTS PORT..`: of each dial the number of the connection that is up, counted from 0 along the ports at which they
/// wait, or that it failed.
pub fn dials(alloc: Global, words: &[&str], text: &mut String) -> Mem<()> {
    let mut net = net_of(alloc, words)?;
    dial_each(&mut net, words, text)
}

/// The net of a line.
fn net_of(alloc: Global, words: &[&str]) -> Mem<MemNet> {
    let fails = numbers(alloc, word(words, 1))?;
    let waiting = waiting(alloc, word(words, 2))?;
    MemNet::new(alloc, VecDeque::new(alloc), waiting, Vec::new(alloc), fails)
}

/// A connection at each of these ports.
fn waiting(alloc: Global, ports: &str) -> Mem<Vec<Dial>> {
    let ports = numbers(alloc, ports)?;
    let mut waiting = Vec::new(alloc);
    let mut number = 0_u8;
    for port in ports.as_slice() {
        waiting.push(Dial::new(port_of(*port), numbered(alloc, number)?))?;
        number = number.wrapping_add(1);
    }
    Ok(waiting)
}

fn dial_each(net: &mut MemNet, words: &[&str], text: &mut String) -> Mem<()> {
    for port in words.iter().skip(3) {
        dial(net, port.parse::<u16>().unwrap_or(0), text)?;
    }
    tell("done", text)
}

fn dial(net: &mut MemNet, port: u16, text: &mut String) -> Mem<()> {
    match net.dial(port) {
        Dialed::Up(link) => tell_number(link, text),
        Dialed::End => tell("end; ", text),
        Dialed::Failed => tell("failed; ", text),
    }
}

fn tell(what: &str, text: &mut String) -> Mem<()> {
    Ok(text.push_str(what)?)
}

fn port_of(port: u64) -> u16 {
    u16::try_from(port).unwrap_or(0)
}

/// A connection that brings its number.
fn numbered(alloc: Global, number: u8) -> Mem<Connection> {
    Ok(Connection {
        bytes: vec![in alloc; number]?,
        takes: Vec::new(alloc),
        puts: Vec::new(alloc),
    })
}

fn tell_number(mut link: MemLink, text: &mut String) -> Mem<()> {
    tell_taken(&mut link, text)
}

fn tell_taken(link: &mut MemLink, text: &mut String) -> Mem<()> {
    let mut room = [0];
    match link.take(&mut room) {
        Take::Took(_) => Ok(write!(text, "up {}; ", room[0])?),
        Take::End => tell("ended; ", text),
        Take::Failed => tell("fault; ", text),
    }
}
