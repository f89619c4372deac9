//! What a destination has of its copies.

ghost use Rattle.std.specs.Prelude.{◌≡◌, ◌<◌, IfSome};
ghost use Rattle.dest_steps.specs.Copier.{with_seat, xid_of};

use dest_back::{Callbacks, Party};
use dest_jobs::Copies;
use dest_work::Work;
use mount::Mount;
use nfs_base::JobName;
use wire_xdr::Octets;

/// A destination's jobs, its mount of the source with its workers, and what it tells its clients. It calls the source as this
/// principal.
#[derive(Drop)]
pub struct Copier {
    pub copies: Copies,
    pub work: Work,
    pub back: Callbacks,
    pub principal: Octets,
}

impl Copier {
    /// A job that was accepted gets the lowest seat at which no other job sits. Nothing of the one before is left there.
    pub fn seat(&mut self, job: JobName, party: Party)
        ensures seated { self.new ≡ with_seat job party self.old }
        ensures copies { self.new.copies ≡ self.old.copies }
    {
        if let Some(seat) = self.work.seats.seat(job, &self.copies.book) {
            self.work.mount.forget_child(seat as u32);
            self.back.seat(seat as u32, job.number, party);
        }
    }

    /// The xid of the next call, where one is left.
    pub(crate) fn next_xid(&self) -> Option<u32>
        ensures xid { result ≡ xid_of self.now.work.mount self.now.back }
        ensures above { IfSome result (λ xid. self.now.work.mount.calls < xid) }
    {
        next_xid(&self.work.mount, &self.back)
    }
}

/// Calls to the source and to clients are numbered together, from 1 on.
pub(crate) fn next_xid(mount: &Mount, back: &Callbacks) -> Option<u32>
    ensures xid { result ≡ xid_of mount.now back.now }
    ensures above { IfSome result (λ xid. mount.now.calls < xid) }
{
    let last = mount.calls().max(back.calls());
    last.checked_add(1)
}
