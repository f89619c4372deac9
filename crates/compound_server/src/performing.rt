//! One operation behind SEQUENCE.

ghost use Rattle.std.specs.Prelude.{◌≡◌, ◌+◌, ◌-◌, ◌^◌, ◌<◌, ◌≤◌};
ghost use Rattle.file_server.specs.Answering.{Ready, Keeps};
ghost use Rattle.file_server.specs.declared.extension.Ask.TheVariants.{Operation};
ghost use Rattle.server_volume.specs.Moments.{Counted};
ghost use Rattle.server_volume.specs.Store.{seat_of};
ghost use Rattle.compound_server.specs.Course.{Performs, course_of};
ghost use Rattle.compound_server.specs.Performing.{perform, file_done, asks_later, gate_refusal, op_refusal};
ghost use Rattle.compound_server.specs.Preparing.{op_of, IsSuited};
ghost use Rattle.compound_server.specs.State.{AreCounted};

use crate::preparing::Prepared;
use crate::refusing::place_refusal;
use crate::server::Server;
use crate::serving::Serving;
use disk_model::Disk;
use file_ops::{
    FileArg, OP_CREATE_SESSION, OP_DESTROY_CLIENTID, OP_DESTROY_SESSION, OP_EXCHANGE_ID,
    OP_GETATTR, OP_ILLEGAL, OP_READ, OP_RECLAIM_COMPLETE, OP_SEQUENCE,
};
use file_server::{Ask, Caller, Gate, Progress};
use nfs_base::Status;

impl<D: Disk, X> Server<D, X> {
    /// Answers an operation behind SEQUENCE. `next` is the number of the one behind it.
    #[tactic(auto, unfolding(crate::specs::Performing::perform))]
    pub(crate) fn perform<C>(
        &mut self,
        caller: &Caller,
        carry: &Option<C>,
        next: Option<u32>,
        one: Prepared<X::Room>,
        p: &mut Progress,
    ) -> Status
    where
        X: Serving<C>,
        requires ready { Ready p.old 1 }
        requires suited { IsSuited X.suits carry.now one }
        requires opens { self.old.files.opens.made < 2 ^ 32 - 1 }
        requires given { X.given self.old.files.extra < 2 ^ 32 - 1 }
        ensures performs { D.Told → Performs (λ choice. perform (record { gate = X.gated; serve = X.serves }) choice caller.now carry.now next (op_of one) (course_of D.size self.old p.old)) p.old.page.bytes (course_of D.size self.new p.new) p.new.page.bytes result.number }
        ensures keeps { Keeps p.old p.new }
        ensures ran { Counted D.Told (seat_of D.size D.fuse D.timeline D.faults self.old.files.volume) (seat_of D.size D.fuse D.timeline D.faults self.new.files.volume) p.old.used p.new.used }
        ensures counted { AreCounted X.given X.landed 1 self.old self.new }
    {
        let op = one.number();
        if let Some(status) = self.refusal(caller, carry, op) {
            drop(one);
            return p.refuse(op, status);
        }
        match one {
            Prepared::File(arg) => self.file_done(caller, carry, next, arg, p),
            Prepared::Copy { op, room } => X::serve(&mut self.files, caller, carry, op, room, p),
        }
    }

    /// Why an operation isn't evaluated: where it stands, and then what the extension says of it.
    fn refusal<C>(&mut self, caller: &Caller, carry: &Option<C>, op: u32) -> Option<Status>
    where
        X: Serving<C>,
        ensures refusal { result ≡ op_refusal (record { gate = X.gated; serve = X.serves }) caller.now carry.now op self.old.files.extra }
        ensures same { self.new ≡ self.old }
    {
        if let Some(status) = place_refusal(op) {
            return Some(status);
        }
        if asks_later(op) {
            return None;
        }
        self.gate_refusal(caller, carry, op)
    }

    /// Why the extension lets an operation not go on.
    pub(crate) fn gate_refusal<C>(
        &mut self,
        caller: &Caller,
        carry: &Option<C>,
        op: u32,
    ) -> Option<Status>
    where
        X: Serving<C>,
        ensures refusal { result ≡ gate_refusal (X.gated self.old.files.extra caller.now carry.now (Operation op)).1 }
        ensures same { self.new ≡ self.old }
    {
        match self
            .files
            .extra
            .gate(caller, carry, &Ask::Operation { number: op })
        {
            Gate::Refuse(status) => Some(status),
            Gate::Serve => None,
            Gate::Usual => None,
        }
    }

    #[tactic(auto, unfolding(crate::specs::Performing::file_done))]
    fn file_done<C>(
        &mut self,
        caller: &Caller,
        carry: &Option<C>,
        next: Option<u32>,
        arg: FileArg,
        p: &mut Progress,
    ) -> Status
    where
        X: Serving<C>,
        requires ready { Ready p.old 1 }
        requires opens { self.old.files.opens.made < 2 ^ 32 - 1 }
        ensures performs { D.Told → Performs (λ choice. file_done (record { gate = X.gated; serve = X.serves }) choice caller.now carry.now next arg (course_of D.size self.old p.old)) p.old.page.bytes (course_of D.size self.new p.new) p.new.page.bytes result.number }
        ensures keeps { Keeps p.old p.new }
        ensures ran { Counted D.Told (seat_of D.size D.fuse D.timeline D.faults self.old.files.volume) (seat_of D.size D.fuse D.timeline D.faults self.new.files.volume) p.old.used p.new.used }
        ensures counted { AreCounted X.given X.landed 1 self.old self.new }
    {
        match arg {
            FileArg::Close(args) => self.files.close(&args, p),
            FileArg::Commit(_) => self.files.commit(p),
            FileArg::GetAttr(asked) => {
                self.files
                    .get_attributes(caller, carry, asked.as_slice(), p)
            }
            FileArg::GetFh => self.files.get(p),
            FileArg::Lookup(name) => self.files.lookup(name.as_slice(), p),
            FileArg::Open(args) => self.files.open_by_name(caller, args, p),
            FileArg::PutFh(handle) => self.files.put(next, &handle, p),
            FileArg::PutRootFh => self.files.put_root(p),
            FileArg::Read(args) => self.files.read(caller, carry, &args, p),
            FileArg::RestoreFh => self.files.restore(p),
            FileArg::SaveFh => self.files.save(p),
            FileArg::Write(args) => self.files.write(&args, p),
            FileArg::ReclaimComplete(_) => {
                let status = self.sessions.reclaim(caller.client);
                p.refuse(OP_RECLAIM_COMPLETE, status)
            }
            FileArg::Illegal => p.refuse(OP_ILLEGAL, Status::OP_ILLEGAL),
            FileArg::ExchangeId(args) => {
                drop(args);
                p.refuse(OP_EXCHANGE_ID, Status::NOT_ONLY_OP)
            }
            FileArg::CreateSession(args) => {
                drop(args);
                p.refuse(OP_CREATE_SESSION, Status::NOT_ONLY_OP)
            }
            FileArg::DestroySession(_) => p.refuse(OP_DESTROY_SESSION, Status::NOT_ONLY_OP),
            FileArg::Sequence(_) => p.refuse(OP_SEQUENCE, Status::SEQUENCE_POS),
            FileArg::DestroyClientId(_) => p.refuse(OP_DESTROY_CLIENTID, Status::NOT_ONLY_OP),
        }
    }
}

/// Whether an operation asks the extension by itself, once it knows the file.
fn asks_later(op: u32) -> bool
    ensures { result ≡ asks_later op }
{
    op == OP_READ || op == OP_GETATTR
}
