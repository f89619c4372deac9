//! The operations of a copy at a source.

ghost use Rattle.std.specs.Prelude.{◌≡◌, [], IfOk};
ghost use Rattle.compound_server.specs.Serves.{Serves};
ghost use Rattle.file_server.specs.Answering.{Ready, Keeps, going_of};
ghost use Rattle.source_core.specs.Serving.{after_cancel, cancel, cancel_status, grant_refusal, strings_of};

use crate::carried::Carried;
use crate::granting::notify;
use crate::source::Source;
use compound_server::{ClientEnd, Serving};
use copy_ops::{CopyArg, OP_CLONE, OP_COPY, OP_OFFLOAD_CANCEL, OP_OFFLOAD_STATUS};
use disk_model::Disk;
use file_server::{Caller, Files, Progress};
use gss_mech::Mechanism;
use nfs_base::{StateId, Status};
use outcome::Mem;
use std::alloc::Global;
use wire_xdr::Octets;

/// What a grant keeps of the privilege under which it was asked for.
#[derive(Drop)]
pub struct GrantStrings {
    pub secret: Octets,
    pub user: Octets,
}

impl<M: Mechanism> Serving<Carried> for Source<M> {
    ghost use Rattle.std.specs.Prelude.{refl};
    ghost use Rattle.source_core.specs.Laws.{gates_give_none, none_given};
    ghost use Rattle.source_core.specs.Serving.{given, lapses, leaves, serves, suits};

    type Room = GrantStrings;

    ghost suits = { suits };

    ghost serves = { serves };

    ghost leaves = { leaves };

    ghost lapses = { lapses };

    ghost given = { given };

    ghost landed = { λ _. 0 };

    fn room(&self, alloc: Global, carry: &Option<Carried>, op: &CopyArg) -> Mem<GrantStrings> {
        match op {
            CopyArg::CopyNotify(_) => strings_of(alloc, carry),
            _ => Ok(no_strings(alloc)),
        }
    }

    #[tactic(auto, unfolding(crate::specs::Serving::serves))]
    fn serve<D: Disk>(
        files: &mut Files<D, Self>,
        caller: &Caller,
        carry: &Option<Carried>,
        op: CopyArg,
        room: GrantStrings,
        p: &mut Progress,
    ) -> Status {
        match op {
            CopyArg::Copy(_) => p.refuse(OP_COPY, Status::NOTSUPP),
            CopyArg::CopyNotify(args) => notify(files, caller.second, carry, args, room, p),
            CopyArg::OffloadCancel(id) => cancel(files, &id, p),
            CopyArg::OffloadStatus(_) => p.refuse(OP_OFFLOAD_STATUS, Status::NOTSUPP),
            CopyArg::Clone(_) => p.refuse(OP_CLONE, Status::NOTSUPP),
        }
    }

    fn leave(&mut self, client: u64, why: ClientEnd) {}

    fn lapse(&mut self, second: u64) {
        self.grants.expire(second);
    }

    ghost still = { λ x caller carry op. refl };

    ghost timeless = { λ second x caller carry op. refl };

    ghost by_gate = { gates_give_none M.mic_of };

    ghost by_leaving = { λ client why x. none_given x };

    ghost by_lapsing = { λ second x. none_given x };

    ghost gate_lands_none = { λ x caller carry ask. refl };

    ghost leaving_lands_none = { λ client why x. refl };

    ghost lapsing_lands_none = { λ second x. refl };
}

/// Copies what a grant keeps of a privilege.
fn strings_of(alloc: Global, carry: &Option<Carried>) -> Mem<GrantStrings>
    ensures { IfOk result (λ strings. strings ≡ strings_of carry.now) }
{
    match carry {
        Some(Carried::From { secret, user, .. }) => Ok(GrantStrings {
            secret: secret.copy()?,
            user: user.copy()?,
        }),
        Some(Carried::Confirm { .. }) => Ok(no_strings(alloc)),
        None => Ok(no_strings(alloc)),
    }
}

fn no_strings(alloc: Global) -> GrantStrings
    ensures { result ≡ record { secret = []; user = [] } }
{
    GrantStrings {
        secret: Octets::from_vec(Vec::new(alloc)),
        user: Octets::from_vec(Vec::new(alloc)),
    }
}

/// OFFLOAD_CANCEL of a grant (RFC 7862 section 15.8): ends it. BAD_STATEID of any other stateid.
fn cancel<D: Disk, M: Mechanism>(
    files: &mut Files<D, Source<M>>,
    id: &StateId,
    p: &mut Progress,
) -> Status
    requires { Ready p.old 1 }
    ensures serves { Serves (λ choice. cancel id.now (going_of D.size files.old p.old)) p.old.page.bytes (going_of D.size files.new p.new) p.new.page.bytes result.number }
    ensures keeps { Keeps p.old p.new }
    ensures used { p.new.used ≡ p.old.used }
    ensures volume { files.new.volume ≡ files.old.volume }
    ensures opens { files.new.opens ≡ files.old.opens }
    ensures given { files.new.extra.grants.made ≡ files.old.extra.grants.made }
{
    let status = files.extra.cancel(id);
    p.refuse(OP_OFFLOAD_CANCEL, status)
}

impl<M> Source<M> {
    /// Ends the grant that a stateid names, and tells with what status that is answered.
    fn cancel(&mut self, id: &StateId) -> Status
        ensures status { result ≡ cancel_status (grant_refusal self.old.grants id.now) }
        ensures after { self.new ≡ record self.old { grants = after_cancel (grant_refusal self.old.grants id.now) id.now self.old.grants } }
    {
        if id.kind != StateId::COPY_NOTIFY {
            return Status::BAD_STATEID;
        }
        match self.grants.cancel(id) {
            Ok(()) => Status::OK,
            Err(status) => status,
        }
    }
}
