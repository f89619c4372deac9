ghost use Rattle.std.specs.Prelude.{◌≡◌, ◌+◌, ◌<◌, ◌++◌, ◌∷◌, [], length, IfOk};
ghost use Rattle.net_links.specs.Links.{IsNew, IfUp, ups, Accepts, IsNoEnd, DialHasCause, HangsUp};
ghost use Rattle.net_links.specs.Memory.{giving, taking, standing, net_faults, hung_of, place_of, AcceptIs, DialIs};

use crate::hung_link::HungLink;
use crate::mem_link::{Connection, MemLink};
use crate::net::{Dialed, Net};
use outcome::{Mem, Planned};
use std::alloc::Global;
use std::collections::VecDeque;
use std::marker::Model;
use streams::{MemSink, MemSource};

/// A connection in memory that waits to be dialed.
#[derive(Drop)]
pub struct Dial {
    port: u16,
    connection: Connection,
}

impl Model for Dial {
    ghost use Rattle.net_links.specs.Memory.{Waiting};

    ghost Value = { Waiting };

    ghost view = { λ d. record { port = d.port; connection = d.connection } };
}

impl Dial {
    /// This connection waits at this port.
    pub fn new(port: u16, connection: Connection) -> Dial
        ensures { result ≡ record { port = port; connection = connection } }
    {
        Dial { port, connection }
    }
}

/// A net in memory, of connections that come one after another and others that wait to be dialed. It fails at planned calls, and
/// where a port is dialed at which none waits. It keeps each link that was hung up.
#[derive(Drop)]
pub struct MemNet {
    alloc: Global,
    coming: VecDeque<Connection>,
    dials: Vec<Dial>,
    accepts: Planned,
    dialing: Planned,
    accepted: usize,
    up: usize,
    hung: Vec<HungLink>,
    refused: u64,
}

impl Model for MemNet {
    ghost use Rattle.std.specs.Prelude.{◌+◌, ◌≤◌, vec_len, vec_capacity};
    ghost use Rattle.std.specs.VecDeque.{deque_len};
    ghost use Rattle.net_links.specs.Memory.{NetState};

    ghost Value = { NetState };

    ghost view = { λ n. record {
      coming = n.coming.items;
      dials = n.dials.items;
      accepts = n.accepts;
      dialing = n.dialing;
      accepted = n.accepted;
      up = n.up;
      hung = n.hung.items;
      refused = n.refused;
    } };

    ghost invariant = { λ n. record {
      room : vec_len n.hung + n.up + deque_len n.coming + vec_len n.dials ≤ vec_capacity n.hung;
      few : n.accepted + deque_len n.coming ≤ vec_capacity n.hung;
    } };
}

impl MemNet {
    /// A net of the connections that come, in their order, and those that wait to be dialed, of which the first of a port is
    /// dialed first. `accepts` and `dialing` have the numbers of the calls that are to fail, in any order; the first call of each
    /// kind is number 1. It takes its room here, and no memory later.
    pub fn new(
        alloc: Global,
        coming: VecDeque<Connection>,
        dials: Vec<Dial>,
        accepts: Vec<u64>,
        dialing: Vec<u64>,
    ) -> Mem<MemNet>
        ensures { IfOk result (λ net. net ≡ record {
          coming = coming.items;
          dials = dials.items;
          accepts = record { calls = 0; failing = accepts.items };
          dialing = record { calls = 0; failing = dialing.items };
          accepted = 0;
          up = 0;
          hung = [];
          refused = 0;
        }) }
    {
        let room = coming.len() + dials.len();
        Ok(MemNet {
            alloc,
            coming,
            dials,
            accepts: Planned::new(accepts),
            dialing: Planned::new(dialing),
            accepted: 0,
            up: 0,
            hung: Vec::with_capacity(alloc, room)?,
            refused: 0,
        })
    }

    /// The links that were hung up, in that order.
    pub fn hung(&self) -> &[HungLink]
        ensures { result.now ≡ self.now.hung }
    {
        self.hung.as_slice()
    }

    /// How many connections are left to be accepted.
    pub fn coming(&self) -> usize
        ensures { result ≡ length self.now.coming }
    {
        self.coming.len()
    }
}

// The place of the first link that waits at a port.
fn place_of(dials: &[Dial], port: u16) -> Option<usize>
    ensures { result ≡ place_of port dials.now }
{
    dials.iter().position(|dial| dial.port == port)
}

impl Net for MemNet {
    type From = MemSource;

    type To = MemSink;

    type Link = MemLink;

    ghost Told = { Unit {0} };

    ghost coming = { λ n. length n.coming };

    ghost accepted = { λ n. n.accepted };

    ghost up = { λ n. n.up };

    ghost hung = { λ n. hung_of n };

    ghost faults = { λ n. net_faults n };

    fn accept(&mut self) -> Dialed<MemLink>
        ensures answer { AcceptIs self.old self.new result }
        ensures new { IfUp result (λ link. IsNew (standing link)) }
        ensures coming { Accepts (length self.old.coming) (length self.new.coming) result }
        ensures accepted { self.new.accepted ≡ self.old.accepted + ups result }
        ensures up { self.new.up ≡ self.old.up + ups result }
        ensures hung { self.new.hung ≡ self.old.hung }
        ensures cause { DialHasCause (net_faults self.old) (net_faults self.new) result }
    {
        if self.coming.is_empty() {
            return Dialed::End;
        }
        if self.accepts.fails() {
            return Dialed::Failed;
        }
        let Some(connection) = self.coming.pop_front() else {
            return Dialed::End;
        };
        self.accepted += 1;
        self.up += 1;
        Dialed::Up(MemLink::new(self.alloc, connection))
    }

    fn dial(&mut self, port: u16) -> Dialed<MemLink>
        ensures answer { DialIs port self.old self.new result }
        ensures new { IfUp result (λ link. IsNew (standing link)) }
        ensures some { IsNoEnd result }
        ensures coming { self.new.coming ≡ self.old.coming }
        ensures accepted { self.new.accepted ≡ self.old.accepted }
        ensures up { self.new.up ≡ self.old.up + ups result }
        ensures hung { self.new.hung ≡ self.old.hung }
        ensures cause { DialHasCause (net_faults self.old) (net_faults self.new) result }
    {
        if self.dialing.fails() {
            return Dialed::Failed;
        }
        let Some(at) = place_of(self.dials.as_slice(), port) else {
            self.refused = self.refused.saturating_add(1);
            return Dialed::Failed;
        };
        let Dial {
            port: _,
            connection,
        } = self.dials.remove(at);
        self.up += 1;
        Dialed::Up(MemLink::new(self.alloc, connection))
    }

    fn hang_up(&mut self, from: MemSource, to: MemSink)
        requires { 0 < self.old.up }
        ensures kept { self.new ≡ record self.old { up = self.new.up; hung = self.old.hung ++ record { source = from; sink = to } ∷ [] } }
        ensures hung { HangsUp (hung_of self.old) (hung_of self.new) (record { brings = giving from; takes = taking to }) }
        ensures up { self.old.up ≡ self.new.up + 1 }
    {
        self.hung.push_reserved(HungLink::new(from, to));
        self.up -= 1;
    }
}
