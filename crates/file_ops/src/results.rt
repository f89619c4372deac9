//! What an operation answers.

ghost use Rattle.std.specs.Prelude.{◌≡◌, ℕ, List, [], ◌++◌, OnOk, OnErr};
ghost use Rattle.wire_xdr.specs.Cursor.{Appends};
ghost use Rattle.wire_xdr.specs.Form.{Spells};
ghost use Rattle.wire_xdr.specs.Reads.{IsRead, HasNumber};
ghost use Rattle.file_ops.specs.Operations.{IsFileOp};
ghost use Rattle.file_ops.specs.Results.{file_res, file_res_number, file_res_own, file_res_status};

use crate::files::{Attributes, ReadDone, WriteDone};
use crate::opening::OpenDone;
use crate::operation::*;
use crate::sessions::{CreateSessionDone, ExchangeIdDone, SequenceDone};
use nfs_base::{Answer, Handle, StateId, Status};
use outcome::Mem;
use std::alloc::Global;
use wire_xdr::{
    BadXdr, ReadError, Reader, Writer, Xdr, XdrBy, no_prefix_by, one_spelling_by, read_by, write_by,
};

/// What an operation answers (RFC 8881 section 18): its status, and with status 0 what it did, where that
/// is anything that is told.
#[derive(Drop)]
pub enum FileRes {
    Close(Answer<StateId>),

    /// The server's write verifier.
    Commit(Answer<[u8; 8]>),

    GetAttr(Answer<Attributes>),
    GetFh(Answer<Handle>),
    Lookup(Status),
    Open(Answer<OpenDone>),
    PutFh(Status),
    PutRootFh(Status),
    Read(Answer<ReadDone>),
    RestoreFh(Status),
    SaveFh(Status),
    Write(Answer<WriteDone>),
    ExchangeId(Answer<ExchangeIdDone>),
    CreateSession(Answer<CreateSessionDone>),
    DestroySession(Status),
    Sequence(Answer<SequenceDone>),
    DestroyClientId(Status),
    ReclaimComplete(Status),
    Illegal(Status),
}

impl FileRes {
    /// The operation's number.
    pub fn number(&self) -> u32
        ensures { result ≡ file_res_number self.now }
    {
        match self {
            FileRes::Close(_) => OP_CLOSE,
            FileRes::Commit(_) => OP_COMMIT,
            FileRes::GetAttr(_) => OP_GETATTR,
            FileRes::GetFh(_) => OP_GETFH,
            FileRes::Lookup(_) => OP_LOOKUP,
            FileRes::Open(_) => OP_OPEN,
            FileRes::PutFh(_) => OP_PUTFH,
            FileRes::PutRootFh(_) => OP_PUTROOTFH,
            FileRes::Read(_) => OP_READ,
            FileRes::RestoreFh(_) => OP_RESTOREFH,
            FileRes::SaveFh(_) => OP_SAVEFH,
            FileRes::Write(_) => OP_WRITE,
            FileRes::ExchangeId(_) => OP_EXCHANGE_ID,
            FileRes::CreateSession(_) => OP_CREATE_SESSION,
            FileRes::DestroySession(_) => OP_DESTROY_SESSION,
            FileRes::Sequence(_) => OP_SEQUENCE,
            FileRes::DestroyClientId(_) => OP_DESTROY_CLIENTID,
            FileRes::ReclaimComplete(_) => OP_RECLAIM_COMPLETE,
            FileRes::Illegal(_) => OP_ILLEGAL,
        }
    }

    /// The status that the answer begins with.
    pub fn status(&self) -> Status
        ensures { result ≡ file_res_status self.now }
    {
        match self {
            FileRes::Close(answer) => answer.status(),
            FileRes::Commit(answer) => answer.status(),
            FileRes::GetAttr(answer) => answer.status(),
            FileRes::GetFh(answer) => answer.status(),
            FileRes::Lookup(status) => *status,
            FileRes::Open(answer) => answer.status(),
            FileRes::PutFh(status) => *status,
            FileRes::PutRootFh(status) => *status,
            FileRes::Read(answer) => answer.status(),
            FileRes::RestoreFh(status) => *status,
            FileRes::SaveFh(status) => *status,
            FileRes::Write(answer) => answer.status(),
            FileRes::ExchangeId(answer) => answer.status(),
            FileRes::CreateSession(answer) => answer.status(),
            FileRes::DestroySession(status) => *status,
            FileRes::Sequence(answer) => answer.status(),
            FileRes::DestroyClientId(status) => *status,
            FileRes::ReclaimComplete(status) => *status,
            FileRes::Illegal(status) => *status,
        }
    }
}

impl XdrBy for FileRes {
    ghost form = { file_res };

    ghost number_of = { file_res_number };

    #[tactic(auto, unfolding(crate::specs::Results::file_res))]
    fn parse_by(alloc: Global, number: u32, reader: &mut Reader) -> Result<FileRes, ReadError> {
        match number {
            OP_CLOSE => Answer::parse(alloc, reader).map(FileRes::Close),
            OP_COMMIT => Answer::parse(alloc, reader).map(FileRes::Commit),
            OP_GETATTR => Answer::parse(alloc, reader).map(FileRes::GetAttr),
            OP_GETFH => Answer::parse(alloc, reader).map(FileRes::GetFh),
            OP_LOOKUP => Status::parse(alloc, reader).map(FileRes::Lookup),
            OP_OPEN => Answer::parse(alloc, reader).map(FileRes::Open),
            OP_PUTFH => Status::parse(alloc, reader).map(FileRes::PutFh),
            OP_PUTROOTFH => Status::parse(alloc, reader).map(FileRes::PutRootFh),
            OP_READ => Answer::parse(alloc, reader).map(FileRes::Read),
            OP_RESTOREFH => Status::parse(alloc, reader).map(FileRes::RestoreFh),
            OP_SAVEFH => Status::parse(alloc, reader).map(FileRes::SaveFh),
            OP_WRITE => Answer::parse(alloc, reader).map(FileRes::Write),
            OP_EXCHANGE_ID => Answer::parse(alloc, reader).map(FileRes::ExchangeId),
            OP_CREATE_SESSION => Answer::parse(alloc, reader).map(FileRes::CreateSession),
            OP_DESTROY_SESSION => Status::parse(alloc, reader).map(FileRes::DestroySession),
            OP_SEQUENCE => Answer::parse(alloc, reader).map(FileRes::Sequence),
            OP_DESTROY_CLIENTID => Status::parse(alloc, reader).map(FileRes::DestroyClientId),
            OP_RECLAIM_COMPLETE => Status::parse(alloc, reader).map(FileRes::ReclaimComplete),
            OP_ILLEGAL => Status::parse(alloc, reader).map(FileRes::Illegal),
            _ => Err(ReadError::at(reader.at())),
        }
    }

    #[tactic(auto, unfolding(crate::specs::Results::file_res))]
    fn put_by(&self, writer: &mut Writer) -> Mem<()> {
        match self {
            FileRes::Close(answer) => answer.put(writer),
            FileRes::Commit(answer) => answer.put(writer),
            FileRes::GetAttr(answer) => answer.put(writer),
            FileRes::GetFh(answer) => answer.put(writer),
            FileRes::Lookup(status) => status.put(writer),
            FileRes::Open(answer) => answer.put(writer),
            FileRes::PutFh(status) => status.put(writer),
            FileRes::PutRootFh(status) => status.put(writer),
            FileRes::Read(answer) => answer.put(writer),
            FileRes::RestoreFh(status) => status.put(writer),
            FileRes::SaveFh(status) => status.put(writer),
            FileRes::Write(answer) => answer.put(writer),
            FileRes::ExchangeId(answer) => answer.put(writer),
            FileRes::CreateSession(answer) => answer.put(writer),
            FileRes::DestroySession(status) => status.put(writer),
            FileRes::Sequence(answer) => answer.put(writer),
            FileRes::DestroyClientId(status) => status.put(writer),
            FileRes::ReclaimComplete(status) => status.put(writer),
            FileRes::Illegal(status) => status.put(writer),
        }
    }

    ghost own = { file_res_own };
}

/// Reads what the operation with the number `op`, which is one of this crate's, answers: its status, and
/// with status 0 the rest. It is read exactly where the bytes begin with its spelling; a refusal names the
/// first place that fails. After a refusal and without memory the reader stands where it stood.
pub fn read_file_res(alloc: Global, op: u32, reader: &mut Reader) -> Mem<Result<FileRes, BadXdr>>
    requires { IsFileOp op }
    ensures read { IsRead (file_res op) result reader.old reader.new }
    ensures number { HasNumber file_res_number op result }
{
    read_by(alloc, op, reader)
}

/// Writes what an operation answers, without its number. Without memory the writer is as it was.
pub fn write_file_res(alloc: Global, writer: &mut Writer, res: &FileRes) -> Mem<()>
    requires { (file_res (file_res_number res.now)).Fits res.now }
    ensures ok { OnOk result (Appends writer.old ((file_res (file_res_number res.now)).spell res.now) writer.new) }
    ensures err { OnErr result (writer.new ≡ writer.old) }
{
    write_by(alloc, writer, res)
}

/// Of each number, an answer has one spelling, a list of bytes spells one answer, and no spelling begins a
/// longer one.
pub fn results_have_one_spelling()
    ensures spelling { (op : ℕ) (v : FileRes) (a b : List ℕ) → Spells (file_res op) v a → Spells (file_res op) v b → a ≡ b }
    ensures value { (op : ℕ) (u v : FileRes) (bytes : List ℕ) → Spells (file_res op) u bytes → Spells (file_res op) v bytes → u ≡ v }
    ensures prefix { (op : ℕ) (u v : FileRes) (bytes rest : List ℕ) → Spells (file_res op) u bytes → Spells (file_res op) v (bytes ++ rest) → rest ≡ [] }
{
    one_spelling_by::<FileRes>();
    no_prefix_by::<FileRes>();
}
