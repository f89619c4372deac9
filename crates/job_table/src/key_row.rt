ghost use Rattle.std.specs.Prelude.{◌≡◌, ◌++◌, ◌∷◌, ◌<◌, [], not, filter, length, IfOk};
ghost use Rattle.slab.specs.Slab.{get};
ghost use Rattle.job_table.specs.Table.{is_job, passes};

use crate::job::{Job, JobId};
use crate::keys::is_named;
use nfs_base::MOST_JOBS;
use outcome::Mem;
use slab::Slab;
use std::alloc::Global;
use std::marker::Model;

/// The keys of the jobs, in the order of their numbers. Room for those of sixteen is taken when it is made.
#[derive(Drop)]
pub(crate) struct KeyRow {
    keys: Vec<usize>,
}

impl Model for KeyRow {
    ghost use Rattle.std.specs.Prelude.{◌≤◌, vec_capacity};
    ghost use Rattle.nfs_base.specs.declared.limits.TheConstants.{MOST_JOBS};
    ghost use Rattle.job_table.specs.Keys.{Keys};

    ghost Value = { Keys };

    ghost view = { λ row. record { items = row.keys.items } };

    ghost invariant = { λ row. MOST_JOBS ≤ vec_capacity row.keys };
}

impl KeyRow {
    pub(crate) fn new(alloc: Global) -> Mem<KeyRow>
        ensures { IfOk result (λ row. row.items ≡ []) }
    {
        Ok(KeyRow {
            keys: Vec::with_capacity(alloc, MOST_JOBS)?,
        })
    }

    pub(crate) fn allocator(&self) -> Global {
        *self.keys.allocator()
    }

    pub(crate) fn as_slice(&self) -> &[usize]
        ensures value { result.now ≡ self.now.items }
    {
        self.keys.as_slice()
    }

    /// The key of a job more. It wants no memory.
    pub(crate) fn push(&mut self, key: usize)
        requires { length self.old.items < MOST_JOBS }
        ensures items { self.new.items ≡ self.old.items ++ key ∷ [] }
    {
        self.keys.push(key).unwrap();
    }

    /// Takes the key of the job of this name out.
    pub(crate) fn forget(&mut self, slots: &Slab<Job>, boot: u32, id: JobId)
        ensures { self.new.items ≡ filter (λ key. not (passes (is_job boot id) (get slots.now key))) self.old.items }
    {
        self.keys.retain(|key| !is_named(slots, *key, boot, id));
    }
}
