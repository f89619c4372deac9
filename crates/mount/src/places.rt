//! What is awaited at the places.

ghost use Rattle.std.specs.Prelude.{◌≡◌, ◌<◌, length, map, slice_index_or, option_copied, None, true, false};
ghost use Rattle.mount.specs.State.{sets_up, place_sets_up};
ghost use Rattle.mount.specs.Falling.{stays_for, stays_pending, staying, pends_under, awaits_under};

use crate::state::{Aim, Awaiting, Pending};

/// What is awaited at a place.
pub(crate) fn at(places: &[Option<Awaiting>], place: u32) -> Option<&Awaiting>
    requires { place < length places.now }
    ensures { option_copied result ≡ slice_index_or places.now place None }
{
    places[place as usize].as_ref()
}

/// Whether a call of the setup is awaited at a place.
pub(crate) fn sets_up(place: &Option<Awaiting>) -> bool
    ensures { result ≡ place_sets_up place.now }
{
    match place {
        None => false,
        Some(awaiting) => match &awaiting.pending {
            Pending::Init(_) => true,
            Pending::Under { aim, .. } => matches!(aim, Aim::Setup),
        },
    }
}

/// Whether a call under the context of a name is awaited at a place.
pub(crate) fn awaits_under(place: &Option<Awaiting>, name: u32) -> bool
    ensures { result ≡ awaits_under name place.now }
{
    match place {
        None => false,
        Some(awaiting) => match &awaiting.pending {
            Pending::Init(_) => false,
            Pending::Under { context, .. } => *context == name,
        },
    }
}

/// Gives up what is awaited, but for calls in slots.
pub(crate) fn keep_slots(places: &mut [Option<Awaiting>])
    ensures { places.new ≡ map staying places.old }
{
    for place in places.iter_mut() {
        keep_slot(place);
    }
}

fn keep_slot(place: &mut Option<Awaiting>)
    ensures { place.new ≡ staying place.old }
{
    if !stays(place) {
        *place = None;
    }
}

fn stays(place: &Option<Awaiting>) -> bool
    ensures stays { result ≡ true → staying place.now ≡ place.now }
    ensures goes { result ≡ false → staying place.now ≡ None }
{
    match place {
        None => true,
        Some(awaiting) => match &awaiting.pending {
            Pending::Init(_) => false,
            Pending::Under { aim, .. } => matches!(aim, Aim::Slot),
        },
    }
}
