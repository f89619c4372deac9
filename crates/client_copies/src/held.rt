//! CB_OFFLOADs that came before their copies were known.

ghost use Rattle.std.specs.Prelude.{◌≡◌, ◌==◌, ◌≤◌, [], IfOk, not, filter, find, length, vec_len, vec_capacity};
ghost use Rattle.client_copies.specs.Held as spec;

use crate::copy::is_same_id;
use copy_ops::OffloadEnd;
use nfs_base::{Stability, StateId};
use outcome::Mem;
use std::alloc::Global;
use std::marker::Model;

/// How many of them are held.
pub const MOST_HELD: usize = 16;

/// What a CB_OFFLOAD told of the copy with a stateid (RFC 7862 section 16.1).
#[derive(Clone, Copy)]
pub struct HeldOffload {
    pub id: StateId,
    pub end: OffloadEnd,
}

/// CB_OFFLOADs of stateids that no copy has yet, in the order in which they came: at most 16, each counted by itself.
/// Room for all of them is taken when it is made. Contracts see the list.
#[derive(Drop)]
pub struct HeldOffloads {
    held: Vec<HeldOffload>,
}

impl Model for HeldOffloads {
    ghost use Rattle.std.specs.Prelude.{◌≤◌, List, length, vec_capacity};
    ghost use Rattle.client_copies.specs.declared.held.HeldOffload.{HeldOffload};
    ghost use Rattle.client_copies.specs.declared.held.TheConstants.{MOST_HELD};

    ghost Value = { List HeldOffload };

    ghost view = { λ h. h.held.items };

    ghost invariant = { λ h. (length h.held.items ≤ MOST_HELD) × (MOST_HELD ≤ vec_capacity h.held) };
}

impl HeldOffloads {
    /// None is held.
    pub fn new(alloc: Global) -> Mem<HeldOffloads>
        ensures { IfOk result (λ held. held ≡ []) }
    {
        Ok(HeldOffloads {
            held: Vec::with_capacity(alloc, MOST_HELD)?,
        })
    }

    /// The same once more.
    pub fn copy(&self, alloc: Global) -> Mem<HeldOffloads>
        ensures { IfOk result (λ held. held ≡ self.now) }
    {
        let mut held = Vec::with_capacity(alloc, MOST_HELD)?;
        held.extend_from_slice(self.held.as_slice())?;
        Ok(HeldOffloads { held })
    }

    /// Holds one more. False exactly where 16 are held already; then nothing changes. It takes no memory.
    pub fn hold(&mut self, one: HeldOffload) -> bool
        ensures told { result ≡ spec.has_room self.old }
        ensures held { self.new ≡ spec.with_held (spec.has_room self.old) one self.old }
        ensures most { length self.new ≤ MOST_HELD }
    {
        if self.held.len() >= MOST_HELD {
            return false;
        }
        self.held.push(one).unwrap();
        true
    }

    /// Takes out those that are for this stateid, and gives the first of them that says that the copy is stable or failed:
    /// what the others say changes nothing any more.
    pub fn release(&mut self, id: &StateId) -> Option<OffloadEnd>
        ensures told { result ≡ spec.told_for id.now self.old }
        ensures held { self.new ≡ spec.held_for_others id.now self.old }
    {
        let told = told_for(self.held.as_slice(), id);
        keep_others(&mut self.held, id);
        told
    }
}

fn keep_others(held: &mut Vec<HeldOffload>, id: &StateId)
    ensures held { held.new.items ≡ spec.held_for_others id.now held.old.items }
    ensures fewer { vec_len held.new ≤ vec_len held.old }
    ensures room { vec_capacity held.new ≡ vec_capacity held.old }
{
    held.retain(|one| is_for_another(one, id));
}

fn is_for_another(one: &HeldOffload, id: &StateId) -> bool
    ensures { result ≡ not (spec.is_for id.now one.now) }
{
    !is_same_id(&one.id, id)
}

fn told_for(all: &[HeldOffload], id: &StateId) -> Option<OffloadEnd>
    ensures { result ≡ spec.told_for id.now all.now }
{
    let one = all.iter().find(|one| is_told_for(one, id))?;
    Some(one.end)
}

fn is_told_for(one: &HeldOffload, id: &StateId) -> bool
    ensures { result ≡ spec.is_told_for id.now one.now }
{
    is_same_id(&one.id, id) && decides(&one.end)
}

/// Whether it says that the copy is stable, or that it failed.
fn decides(end: &OffloadEnd) -> bool
    ensures { result ≡ spec.decides end.now }
{
    match end {
        OffloadEnd::Done(response) => matches!(response.committed, Stability::FileSync),
        OffloadEnd::Failed { .. } => true,
    }
}
