//! The operations of a copy at a destination.

ghost use Rattle.std.specs.Prelude.{◌≡◌, [], IfOk};
ghost use Rattle.dest_core.specs.Copying.{room_of, secret_of, user_of};
ghost use Rattle.dest_core.specs.Serving.{stop_of};

use crate::copying::{copy, offload_cancel, offload_status};
use crate::destination::Destination;
use compound_server::{ClientEnd, Serving};
use copy_ops::{CopyArg, CopyArgs, OP_CLONE, OP_COPY_NOTIFY};
use dest_jobs::{Carried, CopyRoom, Whose};
use disk_model::Disk;
use file_server::{Caller, Files, Progress};
use gss_mech::Mechanism;
use job_table::JobLog;
use nfs_base::{Status, Stop};
use outcome::Mem;
use std::alloc::Global;
use wire_xdr::Octets;

impl<M: Mechanism> Serving<Carried> for Destination<M> {
    ghost use Rattle.std.specs.Prelude.{refl};
    ghost use Rattle.dest_core.specs.Landing.{landed};
    ghost use Rattle.dest_core.specs.Laws.{leaving_gives, leaving_lands_none, same_given};
    ghost use Rattle.dest_core.specs.Serving.{given, lapses, leaves, serves, suits};

    type Room = Option<CopyRoom>;

    ghost suits = { suits };

    ghost serves = { serves };

    ghost leaves = { leaves };

    ghost lapses = { lapses };

    ghost given = { given };

    ghost landed = { landed };

    fn room(&self, alloc: Global, carry: &Option<Carried>, op: &CopyArg) -> Mem<Option<CopyRoom>> {
        match op {
            CopyArg::Copy(args) => Ok(Some(room_of(alloc, carry, args)?)),
            _ => Ok(None),
        }
    }

    #[tactic(auto, unfolding(crate::specs::Serving::serves))]
    fn serve<D: Disk>(
        files: &mut Files<D, Self>,
        caller: &Caller,
        carry: &Option<Carried>,
        op: CopyArg,
        room: Option<CopyRoom>,
        p: &mut Progress,
    ) -> Status {
        match op {
            CopyArg::Copy(args) => copy(files, caller, carry, args, room.unwrap(), p),
            CopyArg::CopyNotify(_) => p.refuse(OP_COPY_NOTIFY, Status::NOTSUPP),
            CopyArg::OffloadCancel(id) => offload_cancel(files, caller.client, &id, p),
            CopyArg::OffloadStatus(id) => offload_status(files, caller.client, &id, p),
            CopyArg::Clone(_) => p.refuse(OP_CLONE, Status::NOTSUPP),
        }
    }

    fn leave(&mut self, client: u64, why: ClientEnd) {
        self.copier
            .copies
            .end_all(&Whose::Client(client), stop_of(why));
    }

    fn lapse(&mut self, second: u64) {}

    ghost still = { λ x caller carry op. refl };

    ghost timeless = { λ second x caller carry op. refl };

    ghost by_gate = { λ x caller carry ask. same_given x };

    ghost by_leaving = { leaving_gives };

    ghost by_lapsing = { λ second x. same_given x };

    ghost gate_lands_none = { λ x caller carry ask. refl };

    ghost leaving_lands_none = { leaving_lands_none };

    ghost lapsing_lands_none = { λ second x. refl };
}

/// Why the jobs of a client stop that has ended.
fn stop_of(why: ClientEnd) -> Stop
    ensures { result ≡ stop_of why }
{
    match why {
        ClientEnd::Lapsed => Stop::LeaseExpired,
        ClientEnd::Gone => Stop::ClientGone,
    }
}

/// Takes the memory that a job wants.
fn room_of(alloc: Global, carry: &Option<Carried>, args: &CopyArgs) -> Mem<CopyRoom>
    ensures { IfOk result (λ room. room ≡ room_of carry.now args.now) }
{
    Ok(CopyRoom {
        secret: secret_of(alloc, carry)?,
        user: user_of(alloc, carry)?,
        log: JobLog::new(alloc, args.consecutive)?,
    })
}

/// Copies the secret of a privilege.
fn secret_of(alloc: Global, carry: &Option<Carried>) -> Mem<Octets>
    ensures { IfOk result (λ secret. secret ≡ secret_of carry.now) }
{
    match carry {
        Some(carried) => carried.secret.copy(),
        None => Ok(no_bytes(alloc)),
    }
}

/// Copies the user of a privilege.
fn user_of(alloc: Global, carry: &Option<Carried>) -> Mem<Octets>
    ensures { IfOk result (λ user. user ≡ user_of carry.now) }
{
    match carry {
        Some(carried) => carried.user.copy(),
        None => Ok(no_bytes(alloc)),
    }
}

fn no_bytes(alloc: Global) -> Octets
    ensures { result ≡ [] }
{
    Octets::from_vec(Vec::new(alloc))
}
