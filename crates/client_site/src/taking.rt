//! Records that a server answers by.

ghost use Rattle.std.specs.Prelude.{◌≡◌, ◌<◌, IfOk, IfSome, OnErr};
ghost use Rattle.std.specs.List.{AllByRecursion};
ghost use Rattle.mount.specs.declared.state.TheConstants.{PLACES};
ghost use Rattle.mount.specs.Laws.{is_heard};
ghost use Rattle.client_site.specs.Taking as spec;

use crate::site::Site;
use gss_mech::Mechanism;
use mount::{Heard, Mount, PLACES, Told, answers_are_taken_once};
use nfs_base::Seal;
use outcome::Mem;
use std::alloc::Global;

/// To which call a record is the reply, and what it is to it.
#[derive(Drop)]
pub struct Found {
    /// The place at which the reply was awaited.
    pub place: u32,

    /// The second in which the call was last sent.
    pub sent_at: u64,

    pub told: Told,

    /// The seal under which the record was accepted, where it was accepted under one.
    pub accepted: Option<Seal>,
}

impl Site {
    /// Takes a record at the first place at which it is the reply to what is awaited there. None where it is at none; then,
    /// and without memory, nothing changes.
    pub fn take<M: Mechanism>(
        &mut self,
        alloc: Global,
        principal: &[u8],
        record_: &[u8],
        mech: &M,
    ) -> Mem<Option<Found>>
        ensures found { IfOk result (λ found. found ≡ (spec.found_in (record { mic = M.mic_of; derived = M.derived; finished = M.finished mech.now principal.now }) record_.now self.old).0) }
        ensures place { IfOk result (λ found. IfSome found (λ f. f.place < PLACES)) }
        ensures after { IfOk result (λ found. self.new ≡ (spec.found_in (record { mic = M.mic_of; derived = M.derived; finished = M.finished mech.now principal.now }) record_.now self.old).1) }
        ensures err { OnErr result (self.new ≡ self.old) }
    {
        let places = &[0, 1, 2, 3, 4, 5, 6, 7, 8, 9, 10, 11, 12, 13, 14, 15];
        take_at(&mut self.mount, alloc, places, principal, record_, mech)
    }
}

fn take_at<M: Mechanism>(
    mount: &mut Mount,
    alloc: Global,
    places: &[u32],
    principal: &[u8],
    record_: &[u8],
    mech: &M,
) -> Mem<Option<Found>>
    requires { AllByRecursion (λ place. place < PLACES) places.now }
    ensures found { IfOk result (λ found. found ≡ (spec.found_at (record { mic = M.mic_of; derived = M.derived; finished = M.finished mech.now principal.now }) record_.now places.now mount.old).0) }
    ensures place { IfOk result (λ found. IfSome found (λ f. f.place < PLACES)) }
    ensures after { IfOk result (λ found. mount.new ≡ (spec.found_at (record { mic = M.mic_of; derived = M.derived; finished = M.finished mech.now principal.now }) record_.now places.now mount.old).1) }
    ensures err { OnErr result (mount.new ≡ mount.old) }
{
    answers_are_taken_once();
    match places {
        [] => Ok(None),
        [place, more @ ..] => {
            let sent_at = mount.sent_at(*place);
            let Heard { told, accepted } = mount.take(alloc, *place, principal, record_, mech)?;
            if !is_heard(&told) {
                return take_at(mount, alloc, more, principal, record_, mech);
            }
            Ok(Some(Found {
                place: *place,
                sent_at: sent_at.unwrap_or(0),
                told,
                accepted,
            }))
        }
    }
}

fn is_heard(told: &Told) -> bool
    ensures { result ≡ is_heard told.now }
{
    !matches!(told, Told::Unmatched)
}
