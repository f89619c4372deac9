ghost use Rattle.std.specs.Prelude.{◌≡◌, find, nat_lt, IfSome};
ghost use Rattle.slab.specs.Slab.{get, ContainsKey};
ghost use Rattle.job_table.specs.Table.{is_job, overlaps, passes, Names};

use crate::job::{Job, JobId, Plan};
use crate::ranges::overlaps;
use slab::Slab;

/// The key of the job of this name.
pub(crate) fn key_of(slots: &Slab<Job>, keys: &[usize], boot: u32, id: JobId) -> Option<usize>
    ensures { result ≡ find (λ key. passes (is_job boot id) (get slots.now key)) keys.now }
{
    keys.iter()
        .copied()
        .find(|key| is_named(slots, *key, boot, id))
}

pub(crate) fn is_named(slots: &Slab<Job>, key: usize, boot: u32, id: JobId) -> bool
    ensures { result ≡ passes (is_job boot id) (get slots.now key) }
{
    match slots.get(key) {
        Some(job) => id.boot == boot && id.number == job.number,
        None => false,
    }
}

/// The key of the job with the lowest number above this one.
pub(crate) fn key_above(slots: &Slab<Job>, keys: &[usize], after: u32) -> Option<usize>
    ensures { result ≡ find (λ key. passes (λ job. nat_lt after job.number) (get slots.now key)) keys.now }
{
    keys.iter()
        .copied()
        .find(|key| is_above(slots, *key, after))
}

fn is_above(slots: &Slab<Job>, key: usize, after: u32) -> bool
    ensures { result ≡ passes (λ job. nat_lt after job.number) (get slots.now key) }
{
    match slots.get(key) {
        Some(job) => after < job.number,
        None => false,
    }
}

/// The key of the job with the lowest number whose range the new one meets.
pub(crate) fn key_met(
    slots: &Slab<Job>,
    keys: &[usize],
    capacity: u64,
    plan: &Plan,
) -> Option<usize>
    ensures { result ≡ find (λ key. passes (overlaps capacity plan.now) (get slots.now key)) keys.now }
{
    keys.iter()
        .copied()
        .find(|key| is_met(slots, *key, capacity, plan))
}

fn is_met(slots: &Slab<Job>, key: usize, capacity: u64, plan: &Plan) -> bool
    ensures { result ≡ passes (overlaps capacity plan.now) (get slots.now key) }
{
    match slots.get(key) {
        Some(job) => overlaps(capacity, plan, job),
        None => false,
    }
}

/// The name of the job under this key.
pub(crate) fn id_at(slots: &Slab<Job>, key: usize, boot: u32) -> JobId
    requires { ContainsKey slots.now key }
    ensures { IfSome (get slots.now key) (λ job. Names boot job result) }
{
    JobId {
        key,
        boot,
        number: slots[key].number,
    }
}
