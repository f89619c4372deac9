//! CLOSE (RFC 8881 section 18.2).

ghost use Rattle.std.specs.Prelude.{◌≡◌, ◌+◌, ◌≤◌, ◌++◌, length, Ok, Some};
ghost use Rattle.nfs_base.specs.Forms.{state_id};
ghost use Rattle.wire_xdr.specs.Words.{word_bytes};
ghost use Rattle.file_server.specs.Machine.{Does};
ghost use Rattle.file_server.specs.Answering.{Ready, Keeps, Says, going_of};
ghost use Rattle.file_server.specs.Closing.{close, close_file, close_meant};

use crate::files::{Files, meant_id};
use crate::opening::put_state_id;
use crate::progress::Progress;
use disk_model::Disk;
use file_ops::{CloseArgs, OP_CLOSE};
use nfs_base::{StateId, Status};

impl<D: Disk, X> Files<D, X> {
    /// CLOSE: ends an open of the current file, whatever its access.
    #[tactic(auto, unfolding(crate::specs::Closing::close, file_ops::specs::Results::file_res, nfs_base::specs::Forms::answer, wire_xdr::specs::Words::word_bytes))]
    pub fn close(&mut self, args: &CloseArgs, p: &mut Progress) -> Status
        requires { Ready p.old 1 }
        ensures does { Does (λ choice. close args.now (going_of D.size self.old p.old)) p.old.page.bytes (going_of D.size self.new p.new) p.new.page.bytes result.number }
        ensures keeps { Keeps p.old p.new }
        ensures used { p.new.used ≡ p.old.used }
        ensures volume { self.new.volume ≡ self.old.volume }
        ensures extra { self.new.extra ≡ self.old.extra }
        ensures made { self.new.opens.made ≡ self.old.opens.made }
    {
        match self.current_file(&p.held.current) {
            Err(status) => p.refuse(OP_CLOSE, status),
            Ok(file) => self.close_file(&args.state_id, file, p),
        }
    }

    #[tactic(auto, unfolding(file_ops::specs::Results::file_res, nfs_base::specs::Forms::answer, wire_xdr::specs::Words::word_bytes))]
    fn close_file(&mut self, id: &StateId, file: u32, p: &mut Progress) -> Status
        requires { Ready p.old 1 }
        ensures does { Does (λ choice. close_file id.now (Ok file) (going_of D.size self.old p.old)) p.old.page.bytes (going_of D.size self.new p.new) p.new.page.bytes result.number }
        ensures keeps { Keeps p.old p.new }
        ensures used { p.new.used ≡ p.old.used }
        ensures volume { self.new.volume ≡ self.old.volume }
        ensures extra { self.new.extra ≡ self.old.extra }
        ensures made { self.new.opens.made ≡ self.old.opens.made }
    {
        match meant_id(&p.held.id, id) {
            None => p.refuse(OP_CLOSE, Status::BAD_STATEID),
            Some(meant) => self.close_open(&meant, file, p),
        }
    }

    #[tactic(auto, unfolding(file_ops::specs::Results::file_res, nfs_base::specs::Forms::answer, wire_xdr::specs::Words::word_bytes))]
    fn close_open(&mut self, id: &StateId, file: u32, p: &mut Progress) -> Status
        requires { Ready p.old 1 }
        ensures does { Does (λ choice. close_meant (Some id.now) file (going_of D.size self.old p.old)) p.old.page.bytes (going_of D.size self.new p.new) p.new.page.bytes result.number }
        ensures keeps { Keeps p.old p.new }
        ensures used { p.new.used ≡ p.old.used }
        ensures volume { self.new.volume ≡ self.old.volume }
        ensures extra { self.new.extra ≡ self.old.extra }
        ensures made { self.new.opens.made ≡ self.old.opens.made }
    {
        match self.opens.close(id, file) {
            Err(status) => p.refuse(OP_CLOSE, status),
            Ok(closed) => p.say_closed(&closed),
        }
    }
}

impl Progress {
    /// CLOSE is done: this stateid, which names nothing.
    fn say_closed(&mut self, closed: &StateId) -> Status
        requires { length self.old.page.bytes + 24 ≤ self.old.page.room }
        ensures says { Says self.old (word_bytes OP_CLOSE ++ (word_bytes 0 ++ state_id.spell closed.now)) self.new }
        ensures len { length self.new.page.bytes ≤ length self.old.page.bytes + 24 }
        ensures status { result ≡ Status.OK }
    {
        self.page.u32(OP_CLOSE);
        self.page.u32(0);
        put_state_id(&mut self.page, closed);
        Status::OK
    }
}
