ghost use Rattle.std.specs.Prelude.{◌≡◌, [], ◌<◌, ◌≤◌, length};
ghost use Rattle.copy_workers.specs.Workers.{AllUnsent};
ghost use Rattle.link_server.specs.Keeping.{books_of};
ghost use Rattle.callback_server.specs.Crew.{standing_of, Dials, DialsFor, HangsAll};

use crate::worker_link::WorkerLink;
use callback_links::Line;
use copy_workers::Gate;
use net_links::{Dialed, Halves, Net};
use rpc_msg::{RecordFeed, Sink, Source, Watched};
use std::alloc::Global;
use std::sync::ledger::Ledger;
use std::sync::{Mutex, Wait};

/// Why a worker's link wasn't dialed.
#[derive(Clone, Copy, PartialEq, Eq)]
pub enum DialFault {
    /// The dial failed.
    Failed,

    /// Memory was refused.
    NoMemory,
}

/// The links of workers.
pub type Crew<'a, R, B, F, T> = Vec<Watched<WorkerLink<'a, R, B, F, T>>>;

/// Dials a port once for each worker, up to the first fault.
pub fn dial_all<'a, R: Wait, B: Ledger, F: Source + Drop, T: Sink + Drop, N: Net<From = F, To = T>>(
    rt: &'a R,
    alloc: Global,
    gate: &'a Gate,
    line: &'a Mutex<Line<B, T>>,
    workers: usize,
    port: u16,
    net: &mut N,
    crew: &mut Crew<'a, R, B, F, T>,
) -> Option<DialFault>
    requires none { crew.old.items ≡ [] }
    ensures unsent { AllUnsent crew.new.items }
    ensures why { DialsFor (length crew.new.items) workers (N.faults net.old) (N.faults net.new) result }
    ensures dials { N.Told → Dials (length crew.new.items) (books_of N.hung N.up N.accepted net.old) (books_of N.hung N.up N.accepted net.new) }
    ensures coming { N.Told → N.coming net.new ≡ N.coming net.old }
    ensures later { N.faults net.old ≤ N.faults net.new }
{
    if crew.reserve(workers).is_err() {
        return Some(DialFault::NoMemory);
    }
    'workers: while crew.len() < workers {
        let Ok(feed) = RecordFeed::new(alloc) else {
            return Some(DialFault::NoMemory);
        };
        match net.dial(port) {
            Dialed::Up(link) => {
                let (from, to) = link.halves();
                let link = WorkerLink::new(rt, gate, line, from, to);
                crew.push_reserved(Watched::new(link, feed));
            }
            Dialed::End | Dialed::Failed => return Some(DialFault::Failed),
        }
    }
    None
}

/// Hangs the workers' links up, in their order.
pub fn hang_all<R: Wait, B: Ledger, F: Source + Drop, T: Sink + Drop, N: Net<From = F, To = T>>(
    crew: Crew<'_, R, B, F, T>,
    net: &mut N,
)
    requires up { N.Told → length crew.items ≤ N.up net.old }
    ensures hung { N.Told → HangsAll (standing_of crew.entry.items) (books_of N.hung N.up N.accepted net.old) (books_of N.hung N.up N.accepted net.new) }
    ensures coming { N.Told → N.coming net.new ≡ N.coming net.old }
    ensures faults { N.faults net.new ≡ N.faults net.old }
{
    let mut crew = crew;
    'links: while crew.len() > 0 {
        let (from, to) = crew.remove(0).into_link().halves();
        net.hang_up(from, to);
    }
}
