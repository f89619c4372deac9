//! At which place an answer is awaited.

ghost use Rattle.std.specs.Prelude.{◌≡◌, ℕ, ◌<◌, length, position, slice_index_or, IfSome, None, true, false};
ghost use Rattle.mount.specs.Places.{awaits_xid, place_of};
ghost use Rattle.mount.specs.State.{awaited_at};
ghost use Rattle.mount.specs.declared.state.TheConstants.{PLACES};

use crate::Mount;
use crate::state::{Awaiting, Pending};

impl Mount {
    /// The place at which the answer to the call with this xid is awaited, if it is.
    pub fn place_of(&self, xid: u32) -> Option<u32>
        ensures place { result ≡ place_of xid self.now }
        ensures within { IfSome result (λ place. place < PLACES) }
        ensures awaits { IfSome result (λ place. awaits_xid xid (awaited_at self.now place) ≡ true) }
        ensures none { result ≡ None → (place : ℕ) → awaits_xid xid (awaited_at self.now place) ≡ false }
    {
        let place = found(&self.places, xid)?;
        Some(place as u32)
    }
}

fn found(places: &[Option<Awaiting>], xid: u32) -> Option<usize>
    ensures place { result ≡ position (awaits_xid xid) places.now }
    ensures within { IfSome result (λ place. place < length places.now) }
    ensures awaits { IfSome result (λ place. awaits_xid xid (slice_index_or places.now place None) ≡ true) }
    ensures none { result ≡ None → (place : ℕ) → awaits_xid xid (slice_index_or places.now place None) ≡ false }
{
    position_of(places, xid)
}

fn position_of(places: &[Option<Awaiting>], xid: u32) -> Option<usize>
    ensures { result ≡ position (awaits_xid xid) places.now }
{
    places.iter().position(|place| awaits_xid(place, xid))
}

/// Whether the answer to the call with this xid is awaited at a place.
fn awaits_xid(place: &Option<Awaiting>, xid: u32) -> bool
    ensures { result ≡ awaits_xid xid place.now }
{
    match place {
        None => false,
        Some(awaiting) => match &awaiting.pending {
            Pending::Init(init) => init.xid() == xid,
            Pending::Under { call, .. } => call.xid() == xid,
        },
    }
}
