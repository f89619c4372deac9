//! Calls in a slot of a session.

ghost use Rattle.std.specs.Prelude.{◌≡◌, ◌≤◌, ◌∷◌, length, sum_by, false, IfOk};
ghost use Rattle.std.specs.List.{AllByRecursion};
ghost use Rattle.nfs_base.specs.declared.limits.TheConstants.{MOST_OPERATIONS, NAME_LIMIT};
ghost use Rattle.nfs_base.specs.Forms.{net_loc};
ghost use Rattle.nfs_compound.specs.Ops.{operation};
ghost use Rattle.nfs_compound.specs.CallLengthLaws.{op_size};
ghost use Rattle.session_calls.specs.declared.compound.TheConstants.{OPERATIONS_SIZE};
ghost use Rattle.nfs_compound.specs.declared.op.Op.TheVariants.{File};
ghost use Rattle.file_ops.specs.declared.args.FileArg.TheVariants.{PutFh, PutRootFh, GetFh, SaveFh, ReclaimComplete};
ghost use Rattle.session_calls.specs.Calls.{sequence_op, file_op, open_op, attributes_op, notify_op, copy_op, slot_ops, slot_compound, FileCallFits, SlotCallFits, IsSendable};

use crate::answer::ATTRS_CHANGE_AND_SIZE;
use crate::compound::whole;
use copy_ops::{CopyArg, CopyArgs, NotifyArgs};
use file_ops::{
    ATTR_CHANGE, Claim, CloseArgs, CommitArgs, FileArg, OpenArgs, OpenHow, ReadArgs, SequenceArgs,
    WriteArgs,
};
use nfs_base::{Handle, NetLoc, SLOTS, Stability, StateId};
use nfs_compound::{Compound, Op};
use outcome::Mem;
use std::alloc::Global;
use wire_xdr::{Items, Octets};

/// The highest slot that a caller may use (RFC 8881 section 18.46).
pub const HIGHEST_SLOT: u32 = SLOTS - 1;

/// OPEN4_SHARE_ACCESS_BOTH: to read and to write (RFC 8881 section 18.16).
const ACCESS_BOTH: u32 = 3;

/// The place of a call in a session: its slot, and its number there (RFC 8881 section 2.10.6.1).
#[derive(Clone, Copy)]
pub struct SlotUse {
    pub session: [u8; 16],
    pub slot: u32,
    pub number: u32,
}

/// What COPY is to copy (RFC 7862 section 15.2), in bytes. A count of 0 goes to the source file's end.
#[derive(Clone, Copy)]
pub struct CopyRange {
    pub src_off: u64,
    pub dst_off: u64,
    pub count: u64,

    /// Whether the bytes are to be copied in their order.
    pub consecutive: bool,
}

/// What is asked of one file; `id` is the stateid. Offsets and counts are bytes.
#[derive(Drop)]
pub enum FileCall {
    /// CLOSE (RFC 8881 section 18.2).
    Close {
        id: StateId,
    },

    /// WRITE, which needn't be stable (RFC 8881 section 18.32).
    Write {
        id: StateId,
        offset: u64,
        bytes: Octets,
    },

    /// COMMIT of the whole file (RFC 8881 section 18.3).
    Commit,

    /// GETATTR of the change attribute (RFC 8881 section 18.7).
    Change,

    /// GETATTR of the change attribute and the size.
    ChangeAndSize,

    /// READ (RFC 8881 section 18.22).
    Read {
        id: StateId,
        offset: u64,
        count: u32,
    },

    /// OFFLOAD_STATUS (RFC 7862 section 15.9).
    Status {
        id: StateId,
    },

    /// OFFLOAD_CANCEL (RFC 7862 section 15.8).
    Cancel {
        id: StateId,
    },
}

/// What is asked of a server in a slot, behind SEQUENCE.
#[derive(Drop)]
pub enum SlotCall {
    /// RECLAIM_COMPLETE of all file systems (RFC 8881 section 18.51).
    ReclaimComplete,

    /// OPEN, from the root, of the file with a name, and GETFH (RFC 8881 sections 18.16 and 18.8).
    Open {
        client: u64,
        owner: Octets,
        name: Octets,
    },

    /// PUTFH of a file, and what is asked of it.
    OnFile {
        file: Handle,
        call: FileCall,
    },

    /// GETATTR of the change attribute, and COPY_NOTIFY (RFC 7862 section 15.3).
    Notify {
        file: Handle,
        id: StateId,
        destination: NetLoc,
    },

    /// COPY from a file of another server (RFC 7862 section 15.2).
    Copy {
        source_file: Handle,
        source_id: StateId,
        file: Handle,
        id: StateId,
        range: CopyRange,
        source: NetLoc,
    },
}

impl FileCall {
    /// The operation.
    #[tactic(auto, unfolding(nfs_compound::specs::Ops::operation, nfs_compound::specs::Ops::op_arg, file_ops::specs::Args::file_arg, copy_ops::specs::Forms::copy_arg, file_ops::specs::Files::close_args, file_ops::specs::Files::write_args, file_ops::specs::Files::commit_args, file_ops::specs::Files::read_args, nfs_base::specs::Forms::state_id, nfs_base::specs::Forms::stability))]
    fn op(self, alloc: Global) -> Mem<Op>
        requires { FileCallFits self }
        ensures is { IfOk result (λ op. op ≡ file_op self) }
        ensures fits { IfOk result (λ op. operation.Fits op) }
        ensures size { IfOk result (λ op. op_size op ≤ 66000) }
    {
        Ok(match self {
            FileCall::Close { id } => Op::File(FileArg::Close(CloseArgs {
                seqid: 0,
                state_id: id,
            })),
            FileCall::Write { id, offset, bytes } => Op::File(FileArg::Write(WriteArgs {
                state_id: id,
                offset,
                stable: Stability::Unstable,
                bytes,
            })),
            FileCall::Commit => Op::File(FileArg::Commit(CommitArgs {
                offset: 0,
                count: 0,
            })),
            FileCall::Change => attributes_op(alloc, ATTR_CHANGE)?,
            FileCall::ChangeAndSize => attributes_op(alloc, ATTRS_CHANGE_AND_SIZE)?,
            FileCall::Read { id, offset, count } => Op::File(FileArg::Read(ReadArgs {
                state_id: id,
                offset,
                count,
            })),
            FileCall::Status { id } => Op::Copy(CopyArg::OffloadStatus(id)),
            FileCall::Cancel { id } => Op::Copy(CopyArg::OffloadCancel(id)),
        })
    }
}

/// GETATTR of the attributes with these bits.
#[tactic(auto, unfolding(nfs_compound::specs::Ops::operation, nfs_compound::specs::Ops::op_arg, file_ops::specs::Args::file_arg))]
fn attributes_op(alloc: Global, mask: u32) -> Mem<Op>
    ensures is { IfOk result (λ op. op ≡ attributes_op mask) }
    ensures fits { IfOk result (λ op. operation.Fits op) }
    ensures size { IfOk result (λ op. op_size op ≤ 200) }
{
    let mut masks = Items::new(alloc);
    masks.push(mask)?;
    Ok(Op::File(FileArg::GetAttr(masks)))
}

/// SEQUENCE of this slot.
#[tactic(auto, unfolding(nfs_compound::specs::Ops::operation, nfs_compound::specs::Ops::op_arg, file_ops::specs::Args::file_arg, file_ops::specs::Sessions::sequence_args))]
fn sequence_op(slot: SlotUse) -> Op
    ensures is { result ≡ sequence_op slot }
    ensures fits { operation.Fits result }
    ensures size { op_size result ≤ 200 }
{
    let session = slot.session;
    Op::File(FileArg::Sequence(SequenceArgs {
        session,
        sequence: slot.number,
        slot: slot.slot,
        highest_slot: HIGHEST_SLOT,
        cache_this: false,
    }))
}

/// PUTFH of this file.
#[tactic(auto, unfolding(nfs_compound::specs::Ops::operation, nfs_compound::specs::Ops::op_arg, file_ops::specs::Args::file_arg))]
fn put_file(file: Handle) -> Op
    ensures is { result ≡ File (PutFh file) }
    ensures fits { operation.Fits result }
    ensures size { op_size result ≤ 200 }
{
    let _bytes = file.as_slice();
    Op::File(FileArg::PutFh(file))
}

/// PUTROOTFH.
#[tactic(auto, unfolding(nfs_compound::specs::Ops::operation, nfs_compound::specs::Ops::op_arg, file_ops::specs::Args::file_arg))]
fn put_root() -> Op
    ensures is { result ≡ File PutRootFh }
    ensures fits { operation.Fits result }
    ensures size { op_size result ≤ 200 }
{
    Op::File(FileArg::PutRootFh)
}

/// GETFH.
#[tactic(auto, unfolding(nfs_compound::specs::Ops::operation, nfs_compound::specs::Ops::op_arg, file_ops::specs::Args::file_arg))]
fn get_handle() -> Op
    ensures is { result ≡ File GetFh }
    ensures fits { operation.Fits result }
    ensures size { op_size result ≤ 200 }
{
    Op::File(FileArg::GetFh)
}

/// SAVEFH.
#[tactic(auto, unfolding(nfs_compound::specs::Ops::operation, nfs_compound::specs::Ops::op_arg, file_ops::specs::Args::file_arg))]
fn save_handle() -> Op
    ensures is { result ≡ File SaveFh }
    ensures fits { operation.Fits result }
    ensures size { op_size result ≤ 200 }
{
    Op::File(FileArg::SaveFh)
}

/// RECLAIM_COMPLETE of all file systems.
#[tactic(auto, unfolding(nfs_compound::specs::Ops::operation, nfs_compound::specs::Ops::op_arg, file_ops::specs::Args::file_arg))]
fn reclaim_complete() -> Op
    ensures is { result ≡ File (ReclaimComplete false) }
    ensures fits { operation.Fits result }
    ensures size { op_size result ≤ 200 }
{
    Op::File(FileArg::ReclaimComplete(false))
}

/// OPEN of a name, to read and to write.
#[tactic(auto, unfolding(nfs_compound::specs::Ops::operation, nfs_compound::specs::Ops::op_arg, file_ops::specs::Args::file_arg, file_ops::specs::Opening::open_args, file_ops::specs::Opening::open_how, file_ops::specs::Opening::claim))]
fn open_op(client: u64, owner: Octets, name: Octets) -> Op
    requires owner { length owner ≤ NAME_LIMIT }
    requires name { length name ≤ NAME_LIMIT }
    ensures is { result ≡ open_op client owner name }
    ensures fits { operation.Fits result }
    ensures size { op_size result ≤ 200 }
{
    Op::File(FileArg::Open(OpenArgs {
        seqid: 0,
        access: ACCESS_BOTH,
        deny: 0,
        client,
        owner,
        how: OpenHow::NoCreate(Claim::Null(name)),
    }))
}

/// COPY_NOTIFY to a destination.
#[tactic(auto, unfolding(nfs_compound::specs::Ops::operation, nfs_compound::specs::Ops::op_arg, copy_ops::specs::Forms::copy_arg, copy_ops::specs::Forms::notify_args, nfs_base::specs::Forms::state_id))]
fn notify_op(id: StateId, destination: NetLoc) -> Op
    requires { net_loc.Fits destination }
    ensures is { result ≡ notify_op id destination }
    ensures fits { operation.Fits result }
    ensures size { op_size result ≤ 17000 }
{
    Op::Copy(CopyArg::CopyNotify(NotifyArgs {
        src_id: id,
        destination,
    }))
}

/// COPY from a source.
#[tactic(auto, unfolding(nfs_compound::specs::Ops::operation, nfs_compound::specs::Ops::op_arg, copy_ops::specs::Forms::copy_arg, copy_ops::specs::Forms::copy_args, nfs_base::specs::Forms::state_id))]
fn copy_op(
    alloc: Global,
    source_id: StateId,
    id: StateId,
    range: CopyRange,
    source: NetLoc,
) -> Mem<Op>
    requires { net_loc.Fits source }
    ensures is { IfOk result (λ op. op ≡ copy_op source_id id range source) }
    ensures fits { IfOk result (λ op. operation.Fits op) }
    ensures size { IfOk result (λ op. op_size op ≤ 17000) }
{
    let mut sources = Items::new(alloc);
    sources.push(source)?;
    Ok(Op::Copy(CopyArg::Copy(CopyArgs {
        src_id: source_id,
        dst_id: id,
        src_off: range.src_off,
        dst_off: range.dst_off,
        count: range.count,
        consecutive: range.consecutive,
        synchronous: false,
        sources,
    })))
}

impl SlotCall {
    /// The call in this slot, as a compound.
    pub fn compound(self, alloc: Global, slot: SlotUse) -> Mem<Compound>
        requires { SlotCallFits self }
        ensures is { IfOk result (λ c. c ≡ slot_compound slot self) }
        ensures sendable { IfOk result (λ c. IsSendable c) }
    {
        let ops = self.ops(alloc, sequence_op(slot))?;
        Ok(whole(alloc, ops))
    }

    /// The operations, of which the first is SEQUENCE.
    fn ops(self, alloc: Global, first: Op) -> Mem<Items<Op>>
        requires call { SlotCallFits self }
        requires first { operation.Fits first }
        requires size { op_size first ≤ 200 }
        ensures is { IfOk result (λ ops. ops ≡ first ∷ slot_ops self) }
        ensures few { IfOk result (λ ops. length ops ≤ MOST_OPERATIONS) }
        ensures fits { IfOk result (λ ops. AllByRecursion operation.Fits ops) }
        ensures size { IfOk result (λ ops. sum_by op_size ops ≤ OPERATIONS_SIZE) }
    {
        match self {
            SlotCall::ReclaimComplete => Ok(Items::from_vec(vec![in alloc;
                first,
                reclaim_complete(),
            ]?)),
            SlotCall::Open {
                client,
                owner,
                name,
            } => {
                let opening = open_op(client, owner, name);
                Ok(Items::from_vec(vec![in alloc; first, put_root(), opening, get_handle()]?))
            }
            SlotCall::OnFile { file, call } => {
                let op = call.op(alloc)?;
                Ok(Items::from_vec(vec![in alloc; first, put_file(file), op]?))
            }
            SlotCall::Notify {
                file,
                id,
                destination,
            } => {
                let change = attributes_op(alloc, ATTR_CHANGE)?;
                let notify = notify_op(id, destination);
                Ok(Items::from_vec(vec![in alloc; first, put_file(file), change, notify]?))
            }
            SlotCall::Copy {
                source_file,
                source_id,
                file,
                id,
                range,
                source,
            } => {
                let copy = copy_op(alloc, source_id, id, range, source)?;
                let from = put_file(source_file);
                Ok(Items::from_vec(vec![in alloc;
                    first,
                    from,
                    save_handle(),
                    put_file(file),
                    copy,
                ]?))
            }
        }
    }
}
