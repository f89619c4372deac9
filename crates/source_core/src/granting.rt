//! COPY_NOTIFY (RFC 7862 section 15.3).

ghost use Rattle.std.specs.Prelude.{◌≡◌, ◌+◌, ◌-◌, ◌^◌, ◌<◌, ◌≤◌, ◌++◌, length, Ok};
ghost use Rattle.compound_server.specs.Serves.{Serves};
ghost use Rattle.copy_ops.specs.Forms.{notify_grant};
ghost use Rattle.file_server.specs.Answering.{Ready, Keeps, Says, going_of};
ghost use Rattle.nfs_base.specs.Forms.{state_id, time};
ghost use Rattle.wire_xdr.specs.Page.{Added};
ghost use Rattle.wire_xdr.specs.Words.{word_bytes};
ghost use Rattle.source_core.specs.Serving.{allows, grant_told, notify, notify_allowed, notify_file, notify_granted, strings_of};

use crate::carried::Carried;
use crate::own_location::OwnLocation;
use crate::serving::GrantStrings;
use crate::source::Source;
use copy_grants::Full;
use copy_ops::{NotifyArgs, OP_COPY_NOTIFY};
use disk_model::Disk;
use file_server::{Files, Progress};
use gss_mech::Mechanism;
use nfs_base::{LEASE_SECONDS, NetLoc, StateId, Status};
use state_ids::Access;
use wire_xdr::Page;

/// COPY_NOTIFY: grants the destination of the context's privilege to read the file of an open.
pub(crate) fn notify<D: Disk, M: Mechanism>(
    files: &mut Files<D, Source<M>>,
    second: u64,
    carry: &Option<Carried>,
    args: NotifyArgs,
    strings: GrantStrings,
    p: &mut Progress,
) -> Status
    requires ready { Ready p.old 1 }
    requires strings { strings ≡ strings_of carry.now }
    requires numbered { files.old.extra.grants.made < 2 ^ 32 - 1 }
    ensures serves { Serves (λ choice. notify second carry.now args (going_of D.size files.old p.old)) p.old.page.bytes (going_of D.size files.new p.new) p.new.page.bytes result.number }
    ensures keeps { Keeps p.old p.new }
    ensures used { p.new.used ≡ p.old.used }
    ensures volume { files.new.volume ≡ files.old.volume }
    ensures opens { files.new.opens ≡ files.old.opens }
    ensures given { files.new.extra.grants.made ≤ files.old.extra.grants.made + 1 }
{
    match files.current_file(&p.held.current) {
        Err(status) => p.refuse(OP_COPY_NOTIFY, status),
        Ok(file) => {
            let allowed = allows(carry, &args.destination);
            notify_allowed(files, second, allowed, file, args, strings, p)
        }
    }
}

#[tactic(auto, unfolding(copy_ops::specs::Forms::copy_res, nfs_base::specs::Forms::answer, wire_xdr::specs::Words::word_bytes))]
fn notify_allowed<D: Disk, M: Mechanism>(
    files: &mut Files<D, Source<M>>,
    second: u64,
    allowed: bool,
    file: u32,
    args: NotifyArgs,
    strings: GrantStrings,
    p: &mut Progress,
) -> Status
    requires ready { Ready p.old 1 }
    requires numbered { files.old.extra.grants.made < 2 ^ 32 - 1 }
    ensures serves { Serves (λ choice. notify_allowed allowed second file args strings (going_of D.size files.old p.old)) p.old.page.bytes (going_of D.size files.new p.new) p.new.page.bytes result.number }
    ensures keeps { Keeps p.old p.new }
    ensures used { p.new.used ≡ p.old.used }
    ensures volume { files.new.volume ≡ files.old.volume }
    ensures opens { files.new.opens ≡ files.old.opens }
    ensures given { files.new.extra.grants.made ≤ files.old.extra.grants.made + 1 }
{
    if !allowed {
        return p.refuse(OP_COPY_NOTIFY, Status::ACCESS);
    }
    match files.check_open(&p.held.id, &args.src_id, file, Access::Read) {
        Err(status) => p.refuse(OP_COPY_NOTIFY, status),
        Ok(()) => grant(files, second, file, args.destination, strings, p),
    }
}

#[tactic(auto, unfolding(copy_ops::specs::Forms::copy_res, nfs_base::specs::Forms::answer, wire_xdr::specs::Words::word_bytes))]
fn grant<D: Disk, M: Mechanism>(
    files: &mut Files<D, Source<M>>,
    second: u64,
    file: u32,
    destination: NetLoc,
    strings: GrantStrings,
    p: &mut Progress,
) -> Status
    requires ready { Ready p.old 1 }
    requires numbered { files.old.extra.grants.made < 2 ^ 32 - 1 }
    ensures serves { Serves (λ choice. notify_granted second file destination strings (going_of D.size files.old p.old)) p.old.page.bytes (going_of D.size files.new p.new) p.new.page.bytes result.number }
    ensures keeps { Keeps p.old p.new }
    ensures used { p.new.used ≡ p.old.used }
    ensures volume { files.new.volume ≡ files.old.volume }
    ensures opens { files.new.opens ≡ files.old.opens }
    ensures given { files.new.extra.grants.made ≤ files.old.extra.grants.made + 1 }
{
    let GrantStrings { secret, user } = strings;
    match files
        .extra
        .grants
        .notify_taken(second, file, destination, user, secret)
    {
        Err(Full) => p.refuse(OP_COPY_NOTIFY, Status::DELAY),
        Ok(id) => say_granted(p, &id, &files.extra.own),
    }
}

/// Whether a context that carries this may ask for a grant to a destination.
fn allows(carry: &Option<Carried>, asked: &NetLoc) -> bool
    ensures { result ≡ allows carry.now asked.now }
{
    match carry {
        Some(Carried::From { destination, .. }) => destination.is_same(asked),
        Some(Carried::Confirm { .. }) => false,
        None => false,
    }
}

/// COPY_NOTIFY is done: a lease of 90 seconds, the grant's stateid, and one place where this source is found.
fn say_granted(p: &mut Progress, id: &StateId, own: &OwnLocation) -> Status
    requires { length p.old.page.bytes + 314 ≤ p.old.page.room }
    ensures says { Says p.old (word_bytes OP_COPY_NOTIFY ++ (word_bytes 0 ++ notify_grant.spell (grant_told id.now own.now))) p.new }
    ensures len { length p.new.page.bytes ≤ length p.old.page.bytes + 314 }
    ensures status { result ≡ Status.OK }
{
    p.page.u32(OP_COPY_NOTIFY);
    p.page.u32(0);
    put_grant(&mut p.page, id, own);
    Status::OK
}

fn put_grant(page: &mut Page, id: &StateId, own: &OwnLocation)
    requires { length page.old.bytes + 306 ≤ page.old.room }
    ensures added { Added page.old (notify_grant.spell (grant_told id.now own.now)) page.new }
    ensures len { length page.new.bytes ≤ length page.old.bytes + 306 }
{
    page.u64(LEASE_SECONDS);
    page.u32(0);
    put_state_id(page, id);
    page.u32(1);
    own.put(page);
}

#[tactic(auto, unfolding(nfs_base::specs::Forms::state_id))]
fn put_state_id(page: &mut Page, id: &StateId)
    requires { length page.old.bytes + 16 ≤ page.old.room }
    ensures added { Added page.old (state_id.spell id.now) page.new }
    ensures len { length page.new.bytes ≤ length page.old.bytes + 16 }
{
    page.u32(id.seqid);
    page.u32(id.kind);
    page.u32(id.boot);
    page.u32(id.number);
}
