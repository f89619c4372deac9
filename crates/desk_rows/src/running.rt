//! The ends, the desk and the workers of a plan, run.

ghost use Rattle.std.specs.Prelude.{◌≡◌, ◌≤◌, length, IfOk};
ghost use Rattle.copy_workers.specs.Workers.{AllUnsent};

use crate::ends::{ClientEnd, SourceEnd, StillClock};
use crate::link::RoomLink;
use crate::making::{new_client, new_dest, new_source};
use crate::plan::Plan;
use crate::ran::{Counts, Ran, Seen, count_all, told};
use crate::reads::Reads;
use crate::room::{MemoryDesk, Room};
use copy_workers::{Gate, Resting, run_workers};
use core_desk::{Core, CoreDesk};
use dest_core::DestCore;
use disk_model::MemoryDisk;
use gss_mech::Realm;
use outcome::Mem;
use rpc_msg::{RecordFeed, Watched};
use std::alloc::Global;
use std::marker::{Brand, Send};
use std::sync::ledger::{Blank, Ledger, Share};
use std::sync::{Mutex, Wait};
use std::thread::Threads;
use streams::CountDraws;
use two_ends::Wrong;

/// The shares of landed bytes, of turns and of bytes given to send, each with all parts of its ledger.
#[derive(Drop)]
struct Shares<L: Ledger, T: Ledger, G: Ledger> {
    landed: Share<L>,
    turned: Share<T>,
    given: Share<G>,
}

/// Makes the ends, lets the client begin its copies, has them carried out by workers, and lets the client take leave. Then the
/// files are compared, where the plan says so.
pub fn run<R: Threads + Wait + Sync>(rt: &R, alloc: Global, plan: Plan) -> Result<Ran, Wrong> {
    let source = Mutex::new(SourceEnd::new(new_source(alloc, plan.size)?));
    run_from(rt, alloc, plan, &source)
}

/// The same over this source.
fn run_from<R: Threads + Wait + Sync>(
    rt: &R,
    alloc: Global,
    plan: Plan,
    source: &Mutex<SourceEnd>,
) -> Result<Ran, Wrong> {
    let client = Mutex::new(ClientEnd::new(new_client(alloc)?));
    run_with(rt, alloc, plan, source, &client)
}

/// The same over this source and this client.
fn run_with<R: Threads + Wait + Sync>(
    rt: &R,
    alloc: Global,
    plan: Plan,
    source: &Mutex<SourceEnd>,
    client: &Mutex<ClientEnd>,
) -> Result<Ran, Wrong> {
    let dest = new_dest(alloc, plan.files(), plan.size)?;
    let (landed, turns, given) = (Blank::new(8), Blank::new(8), Blank::new(8));
    run_over::<Brand, Brand, Brand, R>(rt, alloc, plan, source, client, dest, landed, turns, given)
}

/// The same over these ends, with the books of these ledgers.
fn run_over<L: Ledger + Send, T: Ledger + Send, G: Ledger + Send, R: Threads + Wait + Sync>(
    rt: &R,
    alloc: Global,
    plan: Plan,
    source: &Mutex<SourceEnd>,
    client: &Mutex<ClientEnd>,
    dest: DestCore<MemoryDisk, Realm>,
    landed: Blank,
    turns: Blank,
    given: Blank,
) -> Result<Ran, Wrong>
    requires landed { (landed.name ≡ L.name) × (landed.parts ≡ L.parts) × (8 ≤ landed.parts) }
    requires turns { (turns.name ≡ T.name) × (turns.parts ≡ T.parts) × (8 ≤ turns.parts) }
    requires given { (given.name ≡ G.name) × (given.parts ≡ G.parts) × (8 ≤ given.parts) }
{
    let (desk, shares) = new_desk::<L, T, G, _>(dest, landed, turns, given)?;
    run_at(rt, alloc, plan, source, client, desk, shares)
}

/// The desk of a machine that landed nothing yet, with the books of these ledgers, and the shares of each.
fn new_desk<L: Ledger, T: Ledger, G: Ledger, K: Core<CountDraws> + Drop>(
    core: K,
    landed: Blank,
    turns: Blank,
    given: Blank,
) -> Result<
    (
        CoreDesk<L, T, G, K, StillClock, CountDraws>,
        Shares<L, T, G>,
    ),
    Wrong,
>
    requires landed { (landed.name ≡ L.name) × (landed.parts ≡ L.parts) }
    requires turns { (turns.name ≡ T.name) × (turns.parts ≡ T.parts) }
    requires given { (given.name ≡ G.name) × (given.parts ≡ G.parts) }
    ensures landed { IfOk result (λ made. (made.1.landed.parts ≡ L.parts) × (made.1.landed.amount ≡ 0)) }
    ensures turned { IfOk result (λ made. (made.1.turned.parts ≡ T.parts) × (made.1.turned.amount ≡ 0)) }
    ensures given { IfOk result (λ made. (made.1.given.parts ≡ G.parts) × (made.1.given.amount ≡ 0)) }
{
    if core.landed() != 0 {
        return Err(Wrong::Lacks("a machine that is new"));
    }
    let (landed_book, landed) = landed.open::<L>();
    let (turns_book, turned) = turns.open::<T>();
    let (given_book, given) = given.open::<G>();
    let draws = CountDraws::new();
    let desk = CoreDesk::new(core, StillClock, draws, landed_book, turns_book, given_book);
    Ok((
        desk,
        Shares {
            landed,
            turned,
            given,
        },
    ))
}

/// The same over these ends and this desk.
fn run_at<L: Ledger + Send, T: Ledger + Send, G: Ledger + Send, R: Threads + Wait + Sync>(
    rt: &R,
    alloc: Global,
    plan: Plan,
    source: &Mutex<SourceEnd>,
    client: &Mutex<ClientEnd>,
    desk: MemoryDesk<L, T, G>,
    shares: Shares<L, T, G>,
) -> Result<Ran, Wrong>
    requires landed { (shares.landed.parts ≡ L.parts) × (shares.landed.amount ≡ 0) × (8 ≤ L.parts) }
    requires turned { (shares.turned.parts ≡ T.parts) × (shares.turned.amount ≡ 0) × (8 ≤ T.parts) }
    requires given { (shares.given.parts ≡ G.parts) × (shares.given.amount ≡ 0) × (8 ≤ G.parts) }
{
    let desk = Mutex::new(desk);
    let seen = copy_all(rt, alloc, plan, source, client, &desk, shares);
    let mut dest = desk.into_inner().hand_back();
    let ran = told_at(rt, alloc, &plan, seen, source, &mut dest);
    drop(dest);
    ran
}

/// What is told of a run, where it came to its end.
fn told_at<R: Wait>(
    rt: &R,
    alloc: Global,
    plan: &Plan,
    seen: Result<Seen, Wrong>,
    source: &Mutex<SourceEnd>,
    dest: &mut DestCore<MemoryDisk, Realm>,
) -> Result<Ran, Wrong> {
    told(alloc, plan, seen?, &mut source.lock(rt).core, dest)
}

/// The client begins its copies, the workers carry them out, and then the client takes leave.
fn copy_all<L: Ledger + Send, T: Ledger + Send, G: Ledger + Send, R: Threads + Wait + Sync>(
    rt: &R,
    alloc: Global,
    plan: Plan,
    source: &Mutex<SourceEnd>,
    client: &Mutex<ClientEnd>,
    desk: &Mutex<MemoryDesk<L, T, G>>,
    shares: Shares<L, T, G>,
) -> Result<Seen, Wrong>
    requires landed { (shares.landed.parts ≡ L.parts) × (shares.landed.amount ≡ 0) × (8 ≤ L.parts) }
    requires turned { (shares.turned.parts ≡ T.parts) × (shares.turned.amount ≡ 0) × (8 ≤ T.parts) }
    requires given { (shares.given.parts ≡ G.parts) × (shares.given.amount ≡ 0) × (8 ≤ G.parts) }
{
    let reads = Mutex::new(Reads::none());
    let room = Room {
        rt,
        alloc,
        plan,
        source,
        client,
        desk,
        reads: &reads,
    };
    copy_in(&room, shares)
}

/// The same in a room.
fn copy_in<L: Ledger + Send, T: Ledger + Send, G: Ledger + Send, R: Threads + Wait + Sync>(
    room: &Room<'_, R, L, T, G>,
    shares: Shares<L, T, G>,
) -> Result<Seen, Wrong>
    requires landed { (shares.landed.parts ≡ L.parts) × (shares.landed.amount ≡ 0) × (8 ≤ L.parts) }
    requires turned { (shares.turned.parts ≡ T.parts) × (shares.turned.amount ≡ 0) × (8 ≤ T.parts) }
    requires given { (shares.given.parts ≡ G.parts) × (shares.given.amount ≡ 0) × (8 ≤ G.parts) }
{
    room.begin()?;
    let counts = carry_out(room, shares)?;
    let leave = room.leave()?;
    Ok(room.seen(counts, leave))
}

/// The workers carry the copies out, each at a link.
fn carry_out<L: Ledger + Send, T: Ledger + Send, G: Ledger + Send, R: Threads + Wait + Sync>(
    room: &Room<'_, R, L, T, G>,
    shares: Shares<L, T, G>,
) -> Result<Counts, Wrong>
    requires landed { (shares.landed.parts ≡ L.parts) × (shares.landed.amount ≡ 0) × (8 ≤ L.parts) }
    requires turned { (shares.turned.parts ≡ T.parts) × (shares.turned.amount ≡ 0) × (8 ≤ T.parts) }
    requires given { (shares.given.parts ≡ G.parts) × (shares.given.amount ≡ 0) × (8 ≤ G.parts) }
{
    let gate = Gate::new();
    let mut links = links(room, &gate)?;
    if links.is_empty() || links.len() > 8 {
        return Err(Wrong::Lacks("a worker, or at most eight"));
    }
    let Shares {
        landed,
        turned,
        given,
    } = shares;
    let report = run_workers(
        room.rt,
        room.alloc,
        &gate,
        room.desk,
        landed,
        turned,
        given,
        links.as_mut_slice(),
        u64::from(room.plan.turns),
    );
    Ok(count_all(&report))
}

/// A link for each worker.
#[tactic(auto, using(crate::proofs::Unsent::unsent_last))]
fn links<'a, R: Wait, L: Ledger, T: Ledger, G: Ledger>(
    room: &'a Room<'a, R, L, T, G>,
    gate: &'a Gate,
) -> Mem<Vec<Watched<RoomLink<'a, R, L, T, G>>>>
    ensures { IfOk result (λ links. AllUnsent links.items) }
{
    let mut links = Vec::new(room.alloc);
    'workers: for worker in 1..=room.plan.workers {
        let resting = Resting::new(room.rt, gate);
        let link = RoomLink::new(room, resting, u32::from(worker))?;
        links.push(Watched::new(link, RecordFeed::new(room.alloc)?))?;
    }
    Ok(links)
}
