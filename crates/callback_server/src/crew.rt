ghost use Rattle.std.specs.Prelude.{◌≡◌, ◌<◌, ◌≤◌, ◌^◌, length, is_some, IfErr, IfOk};
ghost use Rattle.std.specs.Thread.{IsSend, IsSync};
ghost use Rattle.copy_workers.specs.Workers.{AllUnsent};
ghost use Rattle.callback_server.specs.Crew.{WorkedIs};

use crate::host::Host;
use copy_workers::{Desk, Gate, Link, WorkerReport, run_workers};
use rpc_msg::Watched;
use std::alloc::Global;
use std::marker::{Send, Sync};
use std::sync::ledger::{Ledger, Share};
use std::sync::{Mutex, Wait};
use std::thread::{Promise, PromisedHandle, Scope, Threads};

/// The links of workers that have ended, and what is reported of them.
#[derive(Drop)]
pub struct Worked<N, L: Ledger, T: Ledger, G: Ledger, Z> {
    pub links: Vec<Watched<N>>,
    pub report: WorkerReport<L, T, G, Z>,
}

// What the workers' thread promises: that so many workers worked, with so many turns at most.
#[derive(Drop)]
pub(crate) struct Works {
    workers: usize,
    turns: u64,
}

impl<N, L: Ledger, T: Ledger, G: Ledger, Z> Promise<Worked<N, L, T, G, Z>> for Works {
    ghost kept_by = { λ p worked. WorkedIs p.workers p.turns worked.links.items (record {
      shares = worked.report.shares;
      turned = worked.report.turned;
      given = worked.report.given;
      ends = worked.report.ends;
      shut = is_some worked.report.shut;
    }) };
}

// Starts a thread that runs workers. Where no thread can be had, it closes the host for workers, and they end at once.
pub(crate) fn start<
    's,
    E,
    R: Threads + Wait + Sync,
    Q: Ledger + Send,
    L: Ledger + Send + 's,
    T: Ledger + Send + 's,
    G: Ledger + Send + 's,
    N: Link + Send + Drop + 's,
    Z: Send + Drop + 's,
    H: Host<Q> + Desk<L, T, G, N, Shut = Z> + Send + 's,
>(
    rt: &'s R,
    alloc: Global,
    scope: &Scope<'s, E>,
    desk: &'s Mutex<H>,
    gate: &'s Gate,
    all: Share<L>,
    turned: Share<T>,
    given: Share<G>,
    links: Vec<Watched<N>>,
    turns: u64,
) -> Result<PromisedHandle<Worked<N, L, T, G, Z>, Works>, Worked<N, L, T, G, Z>>
    requires some { 1 ≤ length links.items }
    requires few { length links.items ≤ 8 }
    requires unsent { AllUnsent links.items }
    requires all { (all.parts ≡ L.parts) × (all.amount ≡ 0) × (8 ≤ L.parts) }
    requires turned { (turned.parts ≡ T.parts) × (turned.amount ≡ 0) × (8 ≤ T.parts) }
    requires given { (given.parts ≡ G.parts) × (given.amount ≡ 0) × (8 ≤ G.parts) }
    requires turns { turns < 2 ^ 32 }
    ensures started { IfOk result (λ handle. (handle.promise.workers ≡ length links.items) × (handle.promise.turns ≡ turns)) }
    ensures refused { IfErr result (λ worked. WorkedIs (length links.items) turns worked.links.items (record {
      shares = worked.report.shares;
      turned = worked.report.turned;
      given = worked.report.given;
      ends = worked.report.ends;
      shut = is_some worked.report.shut;
    })) }
{
    let workers = links.len();
    let job = move || -> Worked<N, L, T, G, Z>
        requires { IsSync R.row × IsSend H.row × IsSend N.row × IsSend Z.row × IsSend L.row × IsSend T.row × IsSend G.row
            × (1 ≤ length links.items) × (length links.items ≤ 8) × AllUnsent links.items × (turns < 2 ^ 32)
            × (all.parts ≡ L.parts) × (all.amount ≡ 0) × (8 ≤ L.parts)
            × (turned.parts ≡ T.parts) × (turned.amount ≡ 0) × (8 ≤ T.parts)
            × (given.parts ≡ G.parts) × (given.amount ≡ 0) × (8 ≤ G.parts) }
        ensures { WorkedIs (length links.items) turns result.links.items (record {
          shares = result.report.shares;
          turned = result.report.turned;
          given = result.report.given;
          ends = result.report.ends;
          shut = is_some result.report.shut;
        }) }
    { work_crew(rt, alloc, gate, desk, all, turned, given, links, turns) };
    match scope.spawn_with(Works { workers, turns }, job) {
        Ok(handle) => Ok(handle),
        Err(refused) => {
            close_host(rt, desk);
            Err((refused.value)())
        }
    }
}

// Runs workers at these links until each has ended.
fn work_crew<
    R: Threads + Wait + Sync,
    L: Ledger + Send,
    T: Ledger + Send,
    G: Ledger + Send,
    N: Link + Send + Drop,
    K: Desk<L, T, G, N>,
>(
    rt: &R,
    alloc: Global,
    gate: &Gate,
    desk: &Mutex<K>,
    all: Share<L>,
    turned: Share<T>,
    given: Share<G>,
    links: Vec<Watched<N>>,
    turns: u64,
) -> Worked<N, L, T, G, K::Shut>
    requires some { 1 ≤ length links.items }
    requires few { length links.items ≤ 8 }
    requires unsent { AllUnsent links.items }
    requires all { (all.parts ≡ L.parts) × (all.amount ≡ 0) × (8 ≤ L.parts) }
    requires turned { (turned.parts ≡ T.parts) × (turned.amount ≡ 0) × (8 ≤ T.parts) }
    requires given { (given.parts ≡ G.parts) × (given.amount ≡ 0) × (8 ≤ G.parts) }
    requires turns { turns < 2 ^ 32 }
    ensures { WorkedIs (length links.items) turns result.links.items (record {
      shares = result.report.shares;
      turned = result.report.turned;
      given = result.report.given;
      ends = result.report.ends;
      shut = is_some result.report.shut;
    }) }
{
    let mut links = links;
    let report = run_workers(
        rt,
        alloc,
        gate,
        desk,
        all,
        turned,
        given,
        links.as_mut_slice(),
        turns,
    );
    Worked { links, report }
}

// Closes a host for workers.
fn close_host<R: Wait, Q: Ledger, H: Host<Q>>(rt: &R, desk: &Mutex<H>) {
    desk.lock(rt).close();
}
