ghost use Rattle.std.specs.Prelude.{◌≡◌, ◌<◌, ◌≤◌, ◌^◌, ℕ, List, [], length};
ghost use Rattle.commit_laws.specs.Calling.{CameByCalls};
ghost use Rattle.server_volume.specs.Moments.{Ran};
ghost use Rattle.server_volume.specs.Store.{Seat, Store};
ghost use Rattle.server_volume.specs.declared.used.Used.{Used};
ghost use Rattle.session_server.specs.Host.{HostState, rules_of};
ghost use Rattle.session_server.specs.Steps.{ticked};
ghost use Rattle.wire_machine.specs.History.{effect_of};
ghost use Rattle.wire_model.specs.CopyLaws.{VolumeLaws};
ghost use Rattle.server_laws.specs.ContextLaws.{InEachStep};
ghost use Rattle.tell_laws.specs.Volumes.{CallsNone, CallsOnce, ChangesLawfully, KeepsFitting, KeepsOpening, KeepsWrites, SparesRoot, volume_of};

use crate::fitting::volumes_stay_fitting;
use commit_laws::Calling;
use session_server::Extending;
use streams::Draws;

/// A server whose own operations make no call on the volume makes one call at most in each step, where it takes only what calls
/// a volume once at most; and in no step a call on the root, which holds no bytes.
pub fn steps_call_once<X: Extending<C>, C, W: Draws>()
    ensures once { (mech : X.Mech) → CallsNone (rules_of X.gated X.serves X.leaves X.lapses X.judges X.tells X.silent) → InEachStep (rules_of X.gated X.serves X.leaves X.lapses X.judges X.tells X.silent) (record { mic = X.Mech.mic_of; derived = X.Mech.derived }) (X.Mech.accepted mech) W.gives (CallsOnce (record { mic = X.Mech.mic_of; derived = X.Mech.derived })) }
    ensures root { (mech : X.Mech) → CallsNone (rules_of X.gated X.serves X.leaves X.lapses X.judges X.tells X.silent) → InEachStep (rules_of X.gated X.serves X.leaves X.lapses X.judges X.tells X.silent) (record { mic = X.Mech.mic_of; derived = X.Mech.derived }) (X.Mech.accepted mech) W.gives SparesRoot }
{
    server_laws::steps_carry_compounds_out::<X, C, W>();
    own_laws::quiet_operations_make_no_call::<X, C>();
}

/// One call at most changes a volume by one effect that is allowed (`wire_model`'s `VolumeLaws`): the one that is seen of the call and
/// of the volume afterwards.
pub fn steps_change_volumes_lawfully()
    ensures ran { (old new : Seat) (used : List Used) → Ran old new [] used → length used ≤ 1 → old.store.volume.writes < 2 ^ 32
        → VolumeLaws old.store.volume new.store.volume (effect_of new.store.volume used) }
    ensures came { (old new : Store) (used : List Used) → CameByCalls old new [] used → length used ≤ 1 → old.volume.writes < 2 ^ 32
        → VolumeLaws old.volume new.volume (effect_of new.volume used) }
{
    copy_model::written_bytes();
    copy_model::written_files();
}

/// Each step of a server whose own operations make no call on the volume changes the volume by one effect that is allowed
/// (`wire_model`'s `VolumeLaws`), where the server takes only what calls a volume once at most; and leaves it fitting.
pub fn servers_change_volumes_lawfully<X: Calling<C>, C, W: Draws>()
    ensures laws { (mech : X.Mech) → CallsNone (rules_of X.gated X.serves X.leaves X.lapses X.judges X.tells X.silent) → InEachStep (rules_of X.gated X.serves X.leaves X.lapses X.judges X.tells X.silent) (record { mic = X.Mech.mic_of; derived = X.Mech.derived }) (X.Mech.accepted mech) W.gives (ChangesLawfully (record { mic = X.Mech.mic_of; derived = X.Mech.derived })) }
    ensures fitting { (mech : X.Mech) → CallsNone (rules_of X.gated X.serves X.leaves X.lapses X.judges X.tells X.silent) → InEachStep (rules_of X.gated X.serves X.leaves X.lapses X.judges X.tells X.silent) (record { mic = X.Mech.mic_of; derived = X.Mech.derived }) (X.Mech.accepted mech) W.gives KeepsFitting }
    ensures writes { (mech : X.Mech) → InEachStep (rules_of X.gated X.serves X.leaves X.lapses X.judges X.tells X.silent) (record { mic = X.Mech.mic_of; derived = X.Mech.derived }) (X.Mech.accepted mech) W.gives KeepsWrites }
    ensures opening { (mech : X.Mech) → InEachStep (rules_of X.gated X.serves X.leaves X.lapses X.judges X.tells X.silent) (record { mic = X.Mech.mic_of; derived = X.Mech.derived }) (X.Mech.accepted mech) W.gives KeepsOpening }
{
    commit_laws::steps_change_by_calls::<X, C, W>();
    steps_call_once::<X, C, W>();
    steps_change_volumes_lawfully();
    volumes_stay_fitting();
}

/// A second that comes by itself leaves a server's volume as it was, as no call does (it tells nothing either: `server_laws` has it
/// take no record).
pub fn seconds_change_nothing<X: Extending<C>, C>()
    ensures store { (now : ℕ) (s : HostState X C)
        → (ticked (rules_of X.gated X.serves X.leaves X.lapses X.judges X.tells X.silent) now s).state.machine.store ≡ s.state.machine.store }
    ensures laws { (now : ℕ) (s : HostState X C)
        → VolumeLaws (volume_of s) (volume_of (ticked (rules_of X.gated X.serves X.leaves X.lapses X.judges X.tells X.silent) now s)) (effect_of (volume_of s) []) }
{}
