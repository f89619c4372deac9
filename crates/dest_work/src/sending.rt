//! What a worker sends to the source for a job.

ghost use Rattle.std.specs.Prelude.{◌≡◌, ◌+◌, ◌^◌, ◌<◌, ◌≤◌, false, true, length, IfOk, OnErr};
ghost use Rattle.copy_privs.specs.Forms.{PrivilegeFits};
ghost use Rattle.mount.specs.Sending.{FitsRecord};
ghost use Rattle.mount.specs.State.{awaited_at, is_setting_up, HasNumbers, setup_in};
ghost use Rattle.mount.specs.declared.state.TheConstants.{PLACES};
ghost use Rattle.nfs_base.specs.declared.limits.TheConstants.{NAME_LIMIT};
ghost use Rattle.session_client.specs.declared.setup.Setup.TheVariants as setups;
ghost use Rattle.dest_work.specs.Sending.{call_sent, confirm_sent, created_by, privilege_of, read_call, setup_sent, size_call, wants_nonce, is_down};

use copy_privs::{Privilege, write_privilege};
use dest_tasks::Chunk;
use gss_mech::{INITIATOR, Mechanism};
use job_book::Plan;
use mount::{Mount, SendAt, Sent, Under};
use nfs_base::{NAME_LIMIT, PRIVILEGE_LIMIT};
use outcome::Mem;
use session_calls::{FileCall, SlotCall};
use session_client::Setup;
use std::alloc::Global;
use wire_xdr::Octets;

/// Whether the next step of the setup is an INIT for which a nonce is to be drawn.
pub(crate) fn wants_nonce(mount: &Mount) -> bool
    ensures wants { result ≡ wants_nonce mount.now }
    ensures down { result ≡ true → setup_in mount.now.standing ≡ setups.Down }
{
    is_down(mount) && !mount.keeps_init()
}

fn is_down(mount: &Mount) -> bool
    ensures is { result ≡ is_down (setup_in mount.now.standing) }
    ensures down { result ≡ true → setup_in mount.now.standing ≡ setups.Down }
{
    matches!(mount.setup(), Setup::Down)
}

/// The next step of the setup that wants no nonce. None as of `Mount::step`.
pub(crate) fn send_setup<M: Mechanism>(
    alloc: Global,
    mount: &mut Mount,
    at: SendAt,
    me: &[u8],
    mech: &M,
) -> Mem<Option<Sent>>
    requires place { at.place < PLACES }
    requires xid { mount.old.calls < at.xid }
    requires free { awaited_at mount.old at.place ≡ None }
    requires alone { is_setting_up mount.old ≡ false }
    requires me { length me.now ≤ NAME_LIMIT }
    ensures fits { IfOk result FitsRecord }
    ensures sent { IfOk result (λ told. told ≡ (setup_sent M.mic_of at me.now mount.old).0) }
    ensures after { IfOk result (λ told. mount.new ≡ (setup_sent M.mic_of at me.now mount.old).1) }
    ensures err { OnErr result (mount.new ≡ mount.old) }
{
    if is_down(mount) {
        mount.begin_anew(alloc, at)
    } else {
        mount.step(alloc, at, me, None, mech)
    }
}

#[tactic(auto, unfolding(copy_privs::specs::Forms::privilege))]
fn privilege_of<M: Mechanism>(
    alloc: Global,
    plan: &Plan,
    key: &[u8; 32],
    mech: &M,
) -> Mem<Privilege>
    requires { length plan.now.user ≤ NAME_LIMIT }
    ensures is { IfOk result (λ privilege. privilege ≡ privilege_of M.mic_of key.now plan.now) }
    ensures fits { IfOk result (λ privilege. PrivilegeFits privilege) }
{
    let code = mech.mic(key, INITIATOR, plan.secret.as_slice());
    Ok(Privilege::Confirm {
        mic: Octets::from_slice(alloc, &code)?,
        user: plan.user.copy()?,
    })
}

/// CREATE of the job's context.
pub(crate) fn send_confirm<M: Mechanism>(
    alloc: Global,
    mount: &mut Mount,
    at: SendAt,
    seat: u32,
    plan: &Plan,
    mech: &M,
) -> Mem<Option<Sent>>
    requires place { at.place < PLACES }
    requires seat { seat < PLACES }
    requires xid { mount.old.calls < at.xid }
    requires free { awaited_at mount.old at.place ≡ None }
    ensures fits { IfOk result FitsRecord }
    ensures sent { IfOk result (λ told. told ≡ (confirm_sent M.mic_of at seat plan.now mount.old).0) }
    ensures after { IfOk result (λ told. mount.new ≡ (confirm_sent M.mic_of at seat plan.now mount.old).1) }
    ensures err { OnErr result (mount.new ≡ mount.old) }
{
    if plan.user.len() > NAME_LIMIT as usize {
        return Ok(None);
    }
    let Some(root) = mount.root() else {
        return Ok(None);
    };
    let key = root.1;
    let privilege = privilege_of(alloc, plan, &key, mech)?;
    create(alloc, mount, at, seat, &privilege, mech)
}

fn create<M: Mechanism>(
    alloc: Global,
    mount: &mut Mount,
    at: SendAt,
    seat: u32,
    privilege: &Privilege,
    mech: &M,
) -> Mem<Option<Sent>>
    requires place { at.place < PLACES }
    requires seat { seat < PLACES }
    requires xid { mount.old.calls < at.xid }
    requires free { awaited_at mount.old at.place ≡ None }
    requires fits { PrivilegeFits privilege.now }
    ensures fits { IfOk result FitsRecord }
    ensures sent { IfOk result (λ told. told ≡ (created_by M.mic_of at seat privilege.now mount.old).0) }
    ensures after { IfOk result (λ told. mount.new ≡ (created_by M.mic_of at seat privilege.now mount.old).1) }
    ensures err { OnErr result (mount.new ≡ mount.old) }
{
    let bytes = write_privilege(alloc, privilege)?;
    if bytes.len() > PRIVILEGE_LIMIT as usize {
        return Ok(None);
    }
    mount.create(alloc, at, seat, privilege.name(), bytes.as_slice(), mech)
}

/// GETATTR of the size of the job's file.
pub(crate) fn send_size<M: Mechanism>(
    alloc: Global,
    mount: &mut Mount,
    at: SendAt,
    seat: u32,
    plan: &Plan,
    mech: &M,
) -> Mem<Option<Sent>>
    requires place { at.place < PLACES }
    requires seat { seat < PLACES }
    requires xid { mount.old.calls < at.xid }
    requires free { awaited_at mount.old at.place ≡ None }
    requires left { HasNumbers mount.old.standing at.place }
    ensures fits { IfOk result FitsRecord }
    ensures sent { IfOk result (λ told. told ≡ (call_sent M.mic_of at seat plan.now size_call mount.old).0) }
    ensures after { IfOk result (λ told. mount.new ≡ (call_sent M.mic_of at seat plan.now size_call mount.old).1) }
    ensures err { OnErr result (mount.new ≡ mount.old) }
{
    let file = plan.source;
    let call = SlotCall::OnFile {
        file,
        call: FileCall::ChangeAndSize,
    };
    mount.send(alloc, at, Under::Child(seat), call, mech)
}

/// READ of a chunk of the job's range.
pub(crate) fn send_read<M: Mechanism>(
    alloc: Global,
    mount: &mut Mount,
    at: SendAt,
    seat: u32,
    plan: &Plan,
    chunk: Chunk,
    mech: &M,
) -> Mem<Option<Sent>>
    requires place { at.place < PLACES }
    requires seat { seat < PLACES }
    requires xid { mount.old.calls < at.xid }
    requires free { awaited_at mount.old at.place ≡ None }
    requires left { HasNumbers mount.old.standing at.place }
    requires within { plan.now.src_off + chunk.off < 2 ^ 64 }
    ensures fits { IfOk result FitsRecord }
    ensures sent { IfOk result (λ told. told ≡ (call_sent M.mic_of at seat plan.now (read_call plan.now chunk) mount.old).0) }
    ensures after { IfOk result (λ told. mount.new ≡ (call_sent M.mic_of at seat plan.now (read_call plan.now chunk) mount.old).1) }
    ensures err { OnErr result (mount.new ≡ mount.old) }
{
    let file = plan.source;
    let id = plan.src_id;
    let call = SlotCall::OnFile {
        file,
        call: FileCall::Read {
            id,
            offset: plan.src_off + chunk.off,
            count: chunk.len,
        },
    };
    mount.send(alloc, at, Under::Child(seat), call, mech)
}
