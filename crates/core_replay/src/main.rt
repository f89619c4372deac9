//! Replays recorded cases of cores from standard input, prints the first line of each case whose outcome is another one
//! here, and then how many cases there were. The word says whose cases come first: `source`, `dest` or `client`.
//!
//! Words are parted by single spaces; bytes are hex, and `-` is none. A line `core source`, `core dest` or `core client` says
//! whose cases follow it. A case of a server begins with `case NAME FILES BLOCKS TAG`: a core over a volume just made. One of a
//! client begins with `case NAME`. Then come events and, behind each, its outcome: the lines `note`, `accepted`, `used`,
//! `undrawn` and `sent`. In the end `file` and `peek` tell what the volume holds, `report` what the client said of a copy, and
//! `awaits` whether it awaits an answer of a server; `end` ends the case. Empty lines and those that begin with `#` are passed
//! over. At an event that the core doesn't make, as `work` at a source, its case is left, which is printed with the number of
//! the line; but a step of a client that can't be made, as a copy that was begun before, has no outcome.
#![tactic(auto)]

mod cases;
mod client;
mod client_lines;
mod cores;
mod dest;
mod draws;
mod due;
mod event;
mod lines;
mod outbox_lines;
mod player;
mod replay;
mod server;
mod serving;
mod setting;
mod source;
mod volume;

use crate::client::Calling;
use crate::cores::Cores;
use crate::player::Core;
use crate::replay::replay_cases;
use crate::serving::Serving;
use disk_model::MemoryDisk;
use gss_mech::Realm;
use std::env::{self, Env};
use std::io;

/// The core that the first word of the command line names.
fn first_core(rt: &(impl Env + AllocGlobal)) -> io::Result<Option<Core>> {
    let Some(word) = env::args(rt)?.skip(1).next() else {
        return Ok(None);
    };
    Ok(Core::named(word.as_str()))
}

/// Servers over disks in memory, and a client.
type MemoryCores = Cores<Serving<MemoryDisk, Realm>, Calling<Realm>>;

/// Replays cases of all cores, those of this one first.
fn replay_from(rt: &HostRuntime, now: Core) -> io::Result<()> {
    let cores: MemoryCores = Cores::new(now);
    replay_cases(rt, cores)
}

fn main(rt: HostRuntime) -> io::Result<()> {
    match first_core(&rt)? {
        Some(core) => replay_from(&rt, core),
        None => println!(rt; "usage: source|dest|client"),
    }
}
