//! A machine that gives back what it is told, behind the number of the connection.

ghost use Rattle.std.specs.Prelude.{◌≡◌, ◌++◌, ◌∷◌, [], List};
ghost use Rattle.link_rows.specs.Toy.{gives_back};

use link_server::{MOST_CALLS, Machine};
use outcome::Mem;
use rpc_msg::RECORD_LIMIT;
use std::alloc::Global;
use wire_xdr::Octets;

/// How many calls were made of it.
#[derive(Drop)]
pub struct Toy {
    calls: u32,
}

impl Toy {
    pub fn new() -> Toy {
        Toy { calls: 0 }
    }
}

impl Machine for Toy {
    ghost calls_of = { λ t. t.calls };

    ghost step = { λ conn message _ reply _. reply ≡ gives_back conn message };

    ghost kept = { λ old new. new ≡ old };

    fn calls(&self) -> u32 {
        self.calls
    }

    fn on_record(&mut self, alloc: Global, conn: u32, record_: &[u8]) -> Mem<Octets> {
        if record_.is_empty() || record_.len() as u64 >= u64::from(RECORD_LIMIT) {
            self.calls += 1;
            return Ok(Octets::from_vec(Vec::new(alloc)));
        }
        let mut reply = Vec::with_capacity(alloc, record_.len() + 1)?;
        reply.push((conn % 256) as u8)?;
        reply.extend_from_slice(record_)?;
        self.calls += 1;
        Ok(Octets::from_vec(reply))
    }
}
