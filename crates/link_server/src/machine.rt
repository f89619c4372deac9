ghost use Rattle.std.specs.Prelude.{◌≡◌, ℕ, ◌+◌, ◌<◌, ◌≤◌, List, length, IfOk, OnOk, OnErr};
ghost use Rattle.rpc_msg.specs.Records.{record_limit};

use outcome::Mem;
use std::alloc::Global;
use wire_xdr::Octets;

/// How many calls are made of a machine at most.
pub const MOST_CALLS: u32 = 67_108_863;

/// What answers the records of connections: a server's machine with its clock and its draws. Each call is one step of it, by a
/// relation that it tells.
pub trait Machine {
    // How many calls were made of it that found memory.
    ghost calls_of: { Self → ℕ };

    // Its steps: the connection's number, the record that came, the state before, the reply, and the state after.
    ghost step: { (conn : ℕ) → (message : List ℕ) → Self → (reply : List ℕ) → Self → Type 0 };

    // Whether it stayed as it was, but for its clock and its draws.
    ghost kept: { Self → Self → Type 0 };

    /// How many calls were made that found memory.
    fn calls(&self) -> u32
        ensures { result ≡ calls_of self.now };

    /// Takes a record that came on a connection, and answers it: empty where there is no reply. Without memory it stays as it was,
    /// and the call isn't counted.
    fn on_record(&mut self, alloc: Global, conn: u32, record_: &[u8]) -> Mem<Octets>
        requires few { calls_of self.old < MOST_CALLS }
        ensures step { IfOk result (λ reply. step conn record_.now self.old reply self.new) }
        ensures small { IfOk result (λ reply. length reply ≤ record_limit) }
        ensures counted { OnOk result (calls_of self.new ≡ calls_of self.old + 1) }
        ensures err { OnErr result (kept self.old self.new) }
        ensures uncounted { OnErr result (calls_of self.new ≡ calls_of self.old) };
}
