//! READ (RFC 8881 section 18.22).

ghost use Rattle.std.specs.Prelude.{◌≡◌, ◌≤◌, ◌<◌, length, Ok, Option, false};
ghost use Rattle.nfs_base.specs.declared.limits.TheConstants.{DATA_LIMIT};
ghost use Rattle.server_volume.specs.Store.{seat_of};
ghost use Rattle.server_volume.specs.Moments.{Counted};
ghost use Rattle.file_server.specs.Machine.{Does};
ghost use Rattle.file_server.specs.Answering.{Ready, Keeps, AsksOnce, going_of};
ghost use Rattle.file_server.specs.Reading.{read, read_file, read_from, read_bytes, read_refusal, read_length, read_eof};

use crate::extension::{Ask, Caller, Extension, Gate};
use crate::files::Files;
use crate::progress::{Progress, say_read};
use disk_model::Disk;
use file_ops::{OP_READ, ReadArgs};
use nfs_base::{DATA_LIMIT, StateId, Status};
use server_volume::call_read;
use state_ids::Access;

impl<D: Disk, X> Files<D, X> {
    /// READ: gives at most 65,536 bytes of the current file, up to its end, once in a compound.
    #[tactic(auto, unfolding(crate::specs::Reading::read, file_ops::specs::Results::file_res, nfs_base::specs::Forms::answer, wire_xdr::specs::Words::word_bytes))]
    pub fn read<P>(
        &mut self,
        caller: &Caller,
        carry: &P,
        args: &ReadArgs,
        p: &mut Progress,
    ) -> Status
    where
        X: Extension<P>,
        requires { Ready p.old 1 }
        ensures does { D.Told → Does (λ choice. read (record { gate = X.gated }) choice caller.now carry.now args.now (going_of D.size self.old p.old)) p.old.page.bytes (going_of D.size self.new p.new) p.new.page.bytes result.number }
        ensures keeps { Keeps p.old p.new }
        ensures ran { Counted D.Told (seat_of D.size D.fuse D.timeline D.faults self.old.volume) (seat_of D.size D.fuse D.timeline D.faults self.new.volume) p.old.used p.new.used }
        ensures opens { self.new.opens ≡ self.old.opens }
        ensures asked { AsksOnce X.gated self.old.extra caller.now carry.now self.new.extra }
    {
        if p.has_read {
            return p.refuse(OP_READ, Status::REP_TOO_BIG);
        }
        match self.byte_file(&p.held.current) {
            Err(status) => p.refuse(OP_READ, status),
            Ok(file) => self.read_file(caller, carry, args, file, p),
        }
    }

    #[tactic(auto, unfolding(file_ops::specs::Results::file_res, nfs_base::specs::Forms::answer, wire_xdr::specs::Words::word_bytes))]
    fn read_file<P>(
        &mut self,
        caller: &Caller,
        carry: &P,
        args: &ReadArgs,
        file: u32,
        p: &mut Progress,
    ) -> Status
    where
        X: Extension<P>,
        requires ready { Ready p.old 1 }
        requires first { p.old.has_read ≡ false }
        requires no_root { 1 ≤ file }
        requires there { file < length self.old.volume.volume.files }
        ensures does { D.Told → Does (λ choice. read_file (record { gate = X.gated }) choice caller.now carry.now args.now (Ok file) (going_of D.size self.old p.old)) p.old.page.bytes (going_of D.size self.new p.new) p.new.page.bytes result.number }
        ensures keeps { Keeps p.old p.new }
        ensures ran { Counted D.Told (seat_of D.size D.fuse D.timeline D.faults self.old.volume) (seat_of D.size D.fuse D.timeline D.faults self.new.volume) p.old.used p.new.used }
        ensures opens { self.new.opens ≡ self.old.opens }
        ensures asked { AsksOnce X.gated self.old.extra caller.now carry.now self.new.extra }
    {
        let ask = Ask::Read {
            file,
            id: args.state_id,
        };
        let gate = self.extra.gate(caller, carry, &ask);
        match self.read_refusal(gate, &p.held.id, &args.state_id, file) {
            Some(status) => p.refuse(OP_READ, status),
            None => self.read_from(args.offset, args.count, file, p),
        }
    }

    /// Why a READ isn't let on, by what the extension says.
    fn read_refusal(
        &self,
        gate: Gate,
        current: &Option<StateId>,
        id: &StateId,
        file: u32,
    ) -> Option<Status>
        ensures { result ≡ read_refusal gate self.now.opens current.now id.now file }
    {
        match gate {
            Gate::Serve => None,
            Gate::Refuse(status) => Some(status),
            Gate::Usual => self.check_open(current, id, file, Access::Read).err(),
        }
    }

    fn read_from(&mut self, off: u64, count: u32, file: u32, p: &mut Progress) -> Status
        requires ready { Ready p.old 1 }
        requires first { p.old.has_read ≡ false }
        requires no_root { 1 ≤ file }
        requires there { file < length self.old.volume.volume.files }
        ensures does { D.Told → Does (λ choice. read_from choice off count file (going_of D.size self.old p.old)) p.old.page.bytes (going_of D.size self.new p.new) p.new.page.bytes result.number }
        ensures keeps { Keeps p.old p.new }
        ensures ran { Counted D.Told (seat_of D.size D.fuse D.timeline D.faults self.old.volume) (seat_of D.size D.fuse D.timeline D.faults self.new.volume) p.old.used p.new.used }
        ensures opens { self.new.opens ≡ self.old.opens }
        ensures extra { self.new.extra ≡ self.old.extra }
    {
        let size = self.volume.file(file).size;
        let len = read_length(size, off, count);
        let eof = read_eof(size, off, count);
        let mut room = [0; DATA_LIMIT as usize];
        self.read_bytes(off, len, eof, file, &mut room[..len as usize], p)
    }

    fn read_bytes(
        &mut self,
        off: u64,
        len: u32,
        eof: bool,
        file: u32,
        out: &mut [u8],
        p: &mut Progress,
    ) -> Status
        requires ready { Ready p.old 1 }
        requires first { p.old.has_read ≡ false }
        requires no_root { 1 ≤ file }
        requires there { file < length self.old.volume.volume.files }
        requires short { len ≤ DATA_LIMIT }
        requires out { length out.old ≡ len }
        ensures does { D.Told → Does (λ choice. read_bytes choice off len eof file (going_of D.size self.old p.old)) p.old.page.bytes (going_of D.size self.new p.new) p.new.page.bytes result.number }
        ensures keeps { Keeps p.old p.new }
        ensures ran { Counted D.Told (seat_of D.size D.fuse D.timeline D.faults self.old.volume) (seat_of D.size D.fuse D.timeline D.faults self.new.volume) p.old.used p.new.used }
        ensures opens { self.new.opens ≡ self.old.opens }
        ensures extra { self.new.extra ≡ self.old.extra }
    {
        match call_read(&mut self.volume, &mut p.used, file, off, out) {
            Err(_) => p.refuse(OP_READ, Status::IO),
            Ok(()) => {
                say_read(&mut p.page, eof, out);
                p.has_read = true;
                Status::OK
            }
        }
    }
}

/// Whether nothing of the file is left behind these bytes.
fn read_eof(size: u64, off: u64, count: u32) -> bool
    ensures { result ≡ read_eof size off count }
{
    u64::from(read_length(size, off, count)) == size.saturating_sub(off)
}

/// How many bytes a READ gives of a file of this size.
fn read_length(size: u64, off: u64, count: u32) -> u32
    ensures len { result ≡ read_length size off count }
    ensures short { result ≤ DATA_LIMIT }
{
    u64::from(count.min(DATA_LIMIT)).min(size.saturating_sub(off)) as u32
}
