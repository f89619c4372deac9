//! The arguments of an operation.

ghost use Rattle.std.specs.Prelude.{◌≡◌, ℕ, List, [], ◌++◌, OnOk, OnErr};
ghost use Rattle.wire_xdr.specs.Cursor.{Appends};
ghost use Rattle.wire_xdr.specs.Form.{Spells};
ghost use Rattle.wire_xdr.specs.Reads.{IsRead, HasNumber};
ghost use Rattle.file_ops.specs.Operations.{IsFileOp, file_op_name};
ghost use Rattle.file_ops.specs.Args.{file_arg, file_arg_number, file_arg_own, is_cut};

use crate::files::{CloseArgs, CommitArgs, ReadArgs, WriteArgs};
use crate::opening::{Claim, OpenArgs, OpenHow};
use crate::operation::*;
use crate::sessions::{CreateSessionArgs, ExchangeIdArgs, Protection, SequenceArgs};
use crate::zero::NO_LIMIT;
use nfs_base::Handle;
use outcome::Mem;
use std::alloc::Global;
use wire_xdr::{
    BadXdr, Items, Octets, ReadError, Reader, Writer, Xdr, XdrBy, no_prefix_by, one_spelling_by,
    read_by, write_by,
};

/// An operation and its arguments (RFC 8881 section 18).
#[derive(Drop)]
pub enum FileArg {
    Close(CloseArgs),
    Commit(CommitArgs),

    /// The attributes that are asked for.
    GetAttr(Items<u32>),

    GetFh,

    /// A name in the current directory.
    Lookup(Octets),

    Open(OpenArgs),
    PutFh(Handle),
    PutRootFh,
    Read(ReadArgs),
    RestoreFh,
    SaveFh,
    Write(WriteArgs),
    ExchangeId(ExchangeIdArgs),
    CreateSession(CreateSessionArgs),

    /// A session's ID.
    DestroySession([u8; 16]),

    Sequence(SequenceArgs),

    /// A client's ID.
    DestroyClientId(u64),

    /// Whether one file system alone is meant.
    ReclaimComplete(bool),

    Illegal,
}

impl FileArg {
    /// The operation's number.
    pub fn number(&self) -> u32
        ensures { result ≡ file_arg_number self.now }
    {
        match self {
            FileArg::Close(_) => OP_CLOSE,
            FileArg::Commit(_) => OP_COMMIT,
            FileArg::GetAttr(_) => OP_GETATTR,
            FileArg::GetFh => OP_GETFH,
            FileArg::Lookup(_) => OP_LOOKUP,
            FileArg::Open(_) => OP_OPEN,
            FileArg::PutFh(_) => OP_PUTFH,
            FileArg::PutRootFh => OP_PUTROOTFH,
            FileArg::Read(_) => OP_READ,
            FileArg::RestoreFh => OP_RESTOREFH,
            FileArg::SaveFh => OP_SAVEFH,
            FileArg::Write(_) => OP_WRITE,
            FileArg::ExchangeId(_) => OP_EXCHANGE_ID,
            FileArg::CreateSession(_) => OP_CREATE_SESSION,
            FileArg::DestroySession(_) => OP_DESTROY_SESSION,
            FileArg::Sequence(_) => OP_SEQUENCE,
            FileArg::DestroyClientId(_) => OP_DESTROY_CLIENTID,
            FileArg::ReclaimComplete(_) => OP_RECLAIM_COMPLETE,
            FileArg::Illegal => OP_ILLEGAL,
        }
    }

    /// The operation's name, in capitals.
    pub fn name(&self) -> &'static str
        ensures { result.now ≡ file_op_name (file_arg_number self.now) }
    {
        file_op_name(self.number())
    }

    /// Whether the operation is cut: an OPEN with creation or with a claim other than CLAIM_NULL, and an
    /// EXCHANGE_ID with state protection. Its spelling ends with the word that says so, and what a peer
    /// sends behind that word isn't read.
    pub fn is_cut(&self) -> bool
        ensures { result ≡ is_cut self.now }
    {
        match self {
            FileArg::Open(args) => match &args.how {
                OpenHow::NoCreate(Claim::Null(_)) => false,
                OpenHow::NoCreate(Claim::Other(_)) => true,
                OpenHow::Create(_) => true,
            },
            FileArg::ExchangeId(args) => match &args.protection {
                Protection::Unprotected(_) => false,
                Protection::Protected(_) => true,
            },
            _ => false,
        }
    }
}

impl XdrBy for FileArg {
    ghost form = { file_arg };

    ghost number_of = { file_arg_number };

    #[tactic(auto, unfolding(crate::specs::Args::file_arg))]
    fn parse_by(alloc: Global, number: u32, reader: &mut Reader) -> Result<FileArg, ReadError> {
        match number {
            OP_CLOSE => CloseArgs::parse(alloc, reader).map(FileArg::Close),
            OP_COMMIT => CommitArgs::parse(alloc, reader).map(FileArg::Commit),
            OP_GETATTR => Items::parse(alloc, reader, NO_LIMIT).map(FileArg::GetAttr),
            OP_GETFH => Ok(FileArg::GetFh),
            OP_LOOKUP => Octets::parse(alloc, reader, NO_LIMIT).map(FileArg::Lookup),
            OP_OPEN => OpenArgs::parse(alloc, reader).map(FileArg::Open),
            OP_PUTFH => Handle::parse(alloc, reader).map(FileArg::PutFh),
            OP_PUTROOTFH => Ok(FileArg::PutRootFh),
            OP_READ => ReadArgs::parse(alloc, reader).map(FileArg::Read),
            OP_RESTOREFH => Ok(FileArg::RestoreFh),
            OP_SAVEFH => Ok(FileArg::SaveFh),
            OP_WRITE => WriteArgs::parse(alloc, reader).map(FileArg::Write),
            OP_EXCHANGE_ID => ExchangeIdArgs::parse(alloc, reader).map(FileArg::ExchangeId),
            OP_CREATE_SESSION => CreateSessionArgs::parse(alloc, reader).map(
                FileArg::CreateSession,
            ),
            OP_DESTROY_SESSION => <[u8; 16]>::parse(alloc, reader).map(FileArg::DestroySession),
            OP_SEQUENCE => SequenceArgs::parse(alloc, reader).map(FileArg::Sequence),
            OP_DESTROY_CLIENTID => u64::parse(alloc, reader).map(FileArg::DestroyClientId),
            OP_RECLAIM_COMPLETE => bool::parse(alloc, reader).map(FileArg::ReclaimComplete),
            OP_ILLEGAL => Ok(FileArg::Illegal),
            _ => Err(ReadError::at(reader.at())),
        }
    }

    #[tactic(auto, unfolding(crate::specs::Args::file_arg))]
    fn put_by(&self, writer: &mut Writer) -> Mem<()> {
        match self {
            FileArg::Close(args) => args.put(writer),
            FileArg::Commit(args) => args.put(writer),
            FileArg::GetAttr(mask) => mask.put(writer),
            FileArg::GetFh => writer.void(),
            FileArg::Lookup(name) => name.put(writer),
            FileArg::Open(args) => args.put(writer),
            FileArg::PutFh(handle) => handle.put(writer),
            FileArg::PutRootFh => writer.void(),
            FileArg::Read(args) => args.put(writer),
            FileArg::RestoreFh => writer.void(),
            FileArg::SaveFh => writer.void(),
            FileArg::Write(args) => args.put(writer),
            FileArg::ExchangeId(args) => args.put(writer),
            FileArg::CreateSession(args) => args.put(writer),
            FileArg::DestroySession(session) => session.put(writer),
            FileArg::Sequence(args) => args.put(writer),
            FileArg::DestroyClientId(client) => client.put(writer),
            FileArg::ReclaimComplete(one) => one.put(writer),
            FileArg::Illegal => writer.void(),
        }
    }

    ghost own = { file_arg_own };
}

/// Reads the arguments of the operation with the number `op`, which is one of this crate's. They are read
/// exactly where the bytes begin with their spelling; a refusal names the first place that fails. After a
/// refusal and without memory the reader stands where it stood. A cut operation is read up to the word
/// that decides this.
pub fn read_file_op(alloc: Global, op: u32, reader: &mut Reader) -> Mem<Result<FileArg, BadXdr>>
    requires { IsFileOp op }
    ensures read { IsRead (file_arg op) result reader.old reader.new }
    ensures number { HasNumber file_arg_number op result }
{
    read_by(alloc, op, reader)
}

/// Writes the arguments of an operation, without its number. Without memory the writer is as it was.
pub fn write_file_op(alloc: Global, writer: &mut Writer, arg: &FileArg) -> Mem<()>
    requires { (file_arg (file_arg_number arg.now)).Fits arg.now }
    ensures ok { OnOk result (Appends writer.old ((file_arg (file_arg_number arg.now)).spell arg.now) writer.new) }
    ensures err { OnErr result (writer.new ≡ writer.old) }
{
    write_by(alloc, writer, arg)
}

/// Of each number, arguments have one spelling, a list of bytes spells one value, and no spelling begins a
/// longer one. A cut operation's spelling ends with the word that decides this.
pub fn arguments_have_one_spelling()
    ensures spelling { (op : ℕ) (v : FileArg) (a b : List ℕ) → Spells (file_arg op) v a → Spells (file_arg op) v b → a ≡ b }
    ensures value { (op : ℕ) (u v : FileArg) (bytes : List ℕ) → Spells (file_arg op) u bytes → Spells (file_arg op) v bytes → u ≡ v }
    ensures prefix { (op : ℕ) (u v : FileArg) (bytes rest : List ℕ) → Spells (file_arg op) u bytes → Spells (file_arg op) v (bytes ++ rest) → rest ≡ [] }
{
    one_spelling_by::<FileArg>();
    no_prefix_by::<FileArg>();
}
