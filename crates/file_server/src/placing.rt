//! The operations on the current and the saved handle: PUTROOTFH, PUTFH, GETFH, SAVEFH and RESTOREFH (RFC 8881 sections
//! 18.21, 18.19, 18.8, 18.28 and 18.27).

ghost use Rattle.std.specs.Prelude.{◌≡◌};
ghost use Rattle.file_server.specs.Machine.{Does};
ghost use Rattle.file_server.specs.Answering.{Ready, Keeps, going_of};
ghost use Rattle.file_server.specs.Placing.{put_root, put, get, save, restore, is_saved_next};

use crate::files::Files;
use crate::handles::{file_of, handle_of};
use crate::progress::Progress;
use disk_model::Disk;
use file_ops::{OP_GETFH, OP_PUTFH, OP_PUTROOTFH, OP_RESTOREFH, OP_SAVEFH};
use nfs_base::{Handle, Status};

impl<D: Disk, X> Files<D, X> {
    /// PUTROOTFH: the root becomes the current file.
    #[tactic(auto, unfolding(crate::specs::Placing::put_root, file_ops::specs::Results::file_res, nfs_base::specs::Forms::status, wire_xdr::specs::Words::word_bytes))]
    pub fn put_root(&self, p: &mut Progress) -> Status
        requires { Ready p.old 1 }
        ensures does { Does (λ choice. put_root (going_of D.size self.now p.old)) p.old.page.bytes (going_of D.size self.now p.new) p.new.page.bytes result.number }
        ensures keeps { Keeps p.old p.new }
        ensures used { p.new.used ≡ p.old.used }
    {
        p.put_current(handle_of(self.volume.tag(), 0));
        p.say_done(OP_PUTROOTFH)
    }

    /// SAVEFH: the current handle and stateid become the saved ones.
    #[tactic(auto, unfolding(crate::specs::Placing::save, file_ops::specs::Results::file_res, nfs_base::specs::Forms::status, wire_xdr::specs::Words::word_bytes))]
    pub fn save(&self, p: &mut Progress) -> Status
        requires { Ready p.old 1 }
        ensures does { Does (λ choice. save (going_of D.size self.now p.old)) p.old.page.bytes (going_of D.size self.now p.new) p.new.page.bytes result.number }
        ensures keeps { Keeps p.old p.new }
        ensures used { p.new.used ≡ p.old.used }
    {
        match p.held.current {
            None => p.refuse(OP_SAVEFH, Status::NOFILEHANDLE),
            Some(handle) => {
                p.held.saved = Some(handle);
                p.held.saved_id = p.held.id;
                p.say_done(OP_SAVEFH)
            }
        }
    }

    /// RESTOREFH: the saved handle and stateid become the current ones.
    #[tactic(auto, unfolding(crate::specs::Placing::restore, file_ops::specs::Results::file_res, nfs_base::specs::Forms::status, wire_xdr::specs::Words::word_bytes))]
    pub fn restore(&self, p: &mut Progress) -> Status
        requires { Ready p.old 1 }
        ensures does { Does (λ choice. restore (going_of D.size self.now p.old)) p.old.page.bytes (going_of D.size self.now p.new) p.new.page.bytes result.number }
        ensures keeps { Keeps p.old p.new }
        ensures used { p.new.used ≡ p.old.used }
    {
        match p.held.saved {
            None => p.refuse(OP_RESTOREFH, Status::NOFILEHANDLE),
            Some(handle) => {
                p.held.current = Some(handle);
                p.held.id = p.held.saved_id;
                p.say_done(OP_RESTOREFH)
            }
        }
    }

    /// GETFH: tells the current handle, where it is one of this volume's.
    #[tactic(auto, unfolding(crate::specs::Placing::get, file_ops::specs::Results::file_res, nfs_base::specs::Forms::answer, nfs_base::specs::Forms::handle, wire_xdr::specs::Words::word_bytes))]
    pub fn get(&self, p: &mut Progress) -> Status
        requires { Ready p.old 1 }
        ensures does { Does (λ choice. get (going_of D.size self.now p.old)) p.old.page.bytes (going_of D.size self.now p.new) p.new.page.bytes result.number }
        ensures keeps { Keeps p.old p.new }
        ensures used { p.new.used ≡ p.old.used }
    {
        match p.held.current {
            None => p.refuse(OP_GETFH, Status::NOFILEHANDLE),
            Some(handle) => {
                match file_of(self.volume.files(), self.volume.tag(), handle.as_slice()) {
                    Err(status) => p.refuse(OP_GETFH, status),
                    Ok(_) => p.say_handle(handle.as_slice()),
                }
            }
        }
    }

    /// PUTFH: a handle becomes the current one. `next` is the number of the operation behind it: where that is SAVEFH
    /// the handle may be of another server.
    #[tactic(auto, unfolding(crate::specs::Placing::put, file_ops::specs::Results::file_res, nfs_base::specs::Forms::status, wire_xdr::specs::Words::word_bytes))]
    pub fn put(&self, next: Option<u32>, handle: &Handle, p: &mut Progress) -> Status
        requires { Ready p.old 1 }
        ensures does { Does (λ choice. put next handle.now (going_of D.size self.now p.old)) p.old.page.bytes (going_of D.size self.now p.new) p.new.page.bytes result.number }
        ensures keeps { Keeps p.old p.new }
        ensures used { p.new.used ≡ p.old.used }
    {
        if !is_saved_next(next) {
            match file_of(self.volume.files(), self.volume.tag(), handle.as_slice()) {
                Err(status) => return p.refuse(OP_PUTFH, status),
                Ok(_) => {}
            }
        }
        p.put_current(*handle);
        p.say_done(OP_PUTFH)
    }
}

/// Whether the operation behind is SAVEFH.
fn is_saved_next(next: Option<u32>) -> bool
    ensures { result ≡ is_saved_next next }
{
    match next {
        None => false,
        Some(number) => number == OP_SAVEFH,
    }
}
