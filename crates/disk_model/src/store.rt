// The blocks of a disk in memory, with all that was written since its last crash.
ghost use Rattle.std.specs.Prelude.{◌≡◌, ℕ, [], ◌<◌, ◌≤◌, true, false, length, take, slice_index_or, IsOk, IsErr, is_some};
ghost use Rattle.std.specs.BTreeMap.{get};
ghost use Rattle.std.specs.Global.{Box};
ghost use Rattle.std.specs.Ordering.{nat_cmp};
ghost use Rattle.disk_model.specs.declared.disk.Io.TheVariants.{Done};
ghost use Rattle.disk_model.specs.declared.store.Call.{Call};
ghost use Rattle.disk_model.specs.declared.store.Call.TheVariants.{Synced};
ghost use Rattle.disk_model.specs.Disk.{Image, Writes, Syncs, zero_block};
ghost use Rattle.disk_model.specs.Elapsed.{present, contents};
ghost use Rattle.disk_model.specs.Pick.{picked, left_by};
ghost use Rattle.disk_model.specs.Replay.{base_of, latest_of, replay, at_rest, moments, Follows, has_place, is_sync, torn_by, torn, IsReplayed, HavePlaces};

use crate::disk::Block;
use outcome::Mem;
use std::alloc::Global;
use std::collections::BTreeMap;

const ZERO_BLOCK: Block = [0; 4096];

// What a crash leaves under pick 2.
const FILLED_BLOCK: Block = [0xa5; 4096];

// The pick under which a crash keeps the last write.
const LAST_WRITE: u8 = 1;

// How many bytes of the last write a crash keeps under pick 3.
const HALF: usize = 2048;

/// A call since the last crash that changed the disk.
#[derive(Drop)]
pub(crate) enum Call {
    Wrote { at: u64, block: Box<Block> },
    Synced,
}

/// Blocks by number. One that was never written has no place, and reads as zeros.
#[derive(Drop)]
pub(crate) struct Store {
    alloc: Global,
    // As the last crash left them.
    left: BTreeMap<u64, Box<Block>>,
    // As they were last written since.
    written: BTreeMap<u64, Box<Block>>,
    calls: Vec<Call>,
    ghost reads: { IsReplayed written left calls.items },
    ghost placed: { HavePlaces left calls.items },
    ghost whole: { (b : ℕ) → length (base_of left b) ≡ 4096 },
}

impl Store {
    /// A disk of zeros.
    pub(crate) fn new(alloc: Global) -> Store
        ensures none { result.calls.items ≡ [] }
        ensures zeros { (b : ℕ) → base_of result.left b ≡ zero_block }
    {
        Store {
            alloc,
            left: BTreeMap::new(alloc),
            written: BTreeMap::new(alloc),
            calls: Vec::new(alloc),
        }
    }

    /// How many calls since the last crash changed the disk.
    pub(crate) fn moment(&self) -> usize
        ensures { result ≡ length self.now.calls.items }
    {
        self.calls.len()
    }

    pub(crate) fn read(&self, at: u64, block: &mut Block)
        ensures { block.new ≡ contents (moments (base_of self.now.left) self.now.calls.items 0) at }
    {
        match self.written.get(&at) {
            Some(written) => *block = **written,
            None => match self.left.get(&at) {
                Some(left) => *block = **left,
                None => *block = ZERO_BLOCK,
            },
        }
    }

    /// On want of memory the disk is as it was.
    pub(crate) fn write(&mut self, at: u64, block: &Block) -> Mem<()>
        ensures base { base_of self.new.left ≡ base_of self.old.left }
        ensures written { IsOk result → Writes at block.now Done
            (present (moments (base_of self.old.left) self.old.calls.items 0))
            (present (moments (base_of self.new.left) self.new.calls.items 0)) }
        ensures opened { IsOk result
            → (present (moments (base_of self.new.left) self.new.calls.items 0)).is_open at ≡ true }
        ensures follows { IsOk result → Follows
            (moments (base_of self.old.left) self.old.calls.items 0)
            (moments (base_of self.new.left) self.new.calls.items 0) }
        ensures err { IsErr result → self.new.calls.items ≡ self.old.calls.items }
    {
        let logged = Box::new(self.alloc, *block)?;
        let latest = Box::new(self.alloc, *block)?;
        self.calls.reserve(1)?;
        make_place(self.alloc, &mut self.left, at)?;
        self.written.insert(at, latest)?;
        self.calls.push(Call::Wrote { at, block: logged })?;
        Ok(())
    }

    /// On want of memory the disk is as it was.
    pub(crate) fn sync(&mut self) -> Mem<()>
        ensures base { base_of self.new.left ≡ base_of self.old.left }
        ensures synced { IsOk result → Syncs Done
            (present (moments (base_of self.old.left) self.old.calls.items 0))
            (present (moments (base_of self.new.left) self.new.calls.items 0)) }
        ensures follows { IsOk result → Follows
            (moments (base_of self.old.left) self.old.calls.items 0)
            (moments (base_of self.new.left) self.new.calls.items 0) }
        ensures err { IsErr result → self.new.calls.items ≡ self.old.calls.items }
    {
        self.calls.push(Call::Synced)?;
        Ok(())
    }

    /// Leaves what a crash at a moment leaves under a pick. It takes no memory.
    pub(crate) fn crash(&mut self, until: usize, pick: u8)
        requires { until ≤ length self.old.calls.items }
        ensures left { (b : ℕ) → base_of self.new.left b
            ≡ left_by pick (moments (base_of self.old.left) self.old.calls.items 0) until b }
        ensures none { self.new.calls.items ≡ [] }
    {
        let calls = &self.calls[..until];
        let synced = synced_len(calls);
        apply(&mut self.left, &calls[..synced], LAST_WRITE);
        apply(&mut self.left, &calls[synced..], pick);
        self.written.clear();
        self.calls.clear();
    }
}

// Makes a place for a block, which changes no block.
fn make_place(alloc: Global, left: &mut BTreeMap<u64, Box<Block>>, at: u64) -> Mem<()>
    ensures same { base_of left.new ≡ base_of left.old }
    ensures placed { (call : Call) → has_place left.old call ≡ true → has_place left.new call ≡ true }
    ensures ok { IsOk result → is_some (get nat_cmp left.new at) ≡ true }
{
    if !left.contains_key(&at) {
        left.insert(at, Box::new(alloc, ZERO_BLOCK)?)?;
    }
    Ok(())
}

// How many of the calls there are up to the last sync, it included.
fn synced_len(calls: &[Call]) -> usize
    ensures within { result ≤ length calls.now }
    ensures rest { (image : Image) → replay (take result calls.now) (at_rest image)
        ≡ at_rest (replay (take result calls.now) (at_rest image)).reads }
    ensures open { (k : ℕ) → result ≤ k → k < length calls.now → is_sync (slice_index_or calls.now k Synced) ≡ false }
{
    let mut synced = 0;
    for (k, call) in calls.iter().enumerate() {
        if let Call::Synced = call {
            synced = k + 1;
        }
    }
    synced
}

// Writes each block that the calls wrote into its place, as the pick has it.
fn apply(left: &mut BTreeMap<u64, Box<Block>>, calls: &[Call], pick: u8)
    requires { HavePlaces left.old calls.now }
    ensures torn { (b : ℕ) → base_of left.new b ≡ torn pick calls.now (base_of left.old) b }
    ensures whole { ((b : ℕ) → length (base_of left.old b) ≡ 4096) → (b : ℕ) → length (base_of left.new b) ≡ 4096 }
    ensures placed { (call : Call) → has_place left.new call ≡ has_place left.old call }
{
    for call in calls {
        apply_one(left, call, pick);
    }
}

fn apply_one(left: &mut BTreeMap<u64, Box<Block>>, call: &Call, pick: u8)
    requires { has_place left.old call.now ≡ true }
    ensures torn { (b : ℕ) → base_of left.new b ≡ torn_by pick (base_of left.old) call.now b }
    ensures placed { (call : Call) → has_place left.new call ≡ has_place left.old call }
{
    if let Call::Wrote { at, block } = call {
        if let Some(place) = left.get_mut(at) {
            tear(place, block, pick);
        }
    }
}

// Writes a block over what the last sync left of it, as the pick has it.
fn tear(place: &mut Block, written: &Block, pick: u8)
    ensures { place.new ≡ picked pick place.old written.now }
{
    match pick {
        0 => {}
        LAST_WRITE => *place = *written,
        2 => *place = FILLED_BLOCK,
        _ => place[..HALF].copy_from_slice(&written[..HALF]),
    }
}
