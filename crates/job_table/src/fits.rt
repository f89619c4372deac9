//! What is known of plans by the types of their parts.

ghost use Rattle.std.specs.Prelude.{All};
ghost use Rattle.nfs_base.specs.Bounds.{HandleFits, StateIdFits};
ghost use Rattle.slab.specs.Slab.{ContainsKey};
ghost use Rattle.wire_xdr.specs.Cursor.{IsBytes};
ghost use Rattle.job_table.specs.Fits.{PlanIsFit};
ghost use Rattle.job_table.specs.Stored.{jobs_at};

use crate::job::{Job, Plan};
use nfs_base::{Handle, StateId};
use slab::Slab;

/// The plan of each job under these keys is fit.
pub(crate) fn plans_are_fit(slots: &Slab<Job>, keys: &[usize])
    requires filled { All (λ key. ContainsKey slots.now key) keys.now }
    ensures { All (λ job. PlanIsFit job.plan) (jobs_at slots.now keys.now) }
{
    for key in keys {
        plan_is_fit(&slots[*key].plan);
    }
}

fn plan_is_fit(plan: &Plan)
    ensures { PlanIsFit plan.now }
{
    handle_is_fit(&plan.source);
    state_id_is_fit(plan.src_id);
    are_bytes(plan.user.as_slice());
}

fn handle_is_fit(handle: &Handle)
    ensures { HandleFits handle.now }
{
    are_bytes(handle.as_slice());
}

fn state_id_is_fit(id: StateId)
    ensures { StateIdFits id }
{}

fn are_bytes(bytes: &[u8])
    ensures { IsBytes bytes.now }
{}
