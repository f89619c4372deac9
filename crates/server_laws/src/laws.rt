ghost use Rattle.std.specs.Prelude.{◌≡◌, ◌<◌, ◌≤◌, ◌^◌, [], ℕ};
ghost use Rattle.session_server.specs.Host.{HostState, rules_of};
ghost use Rattle.session_server.specs.Steps.{ticked};
ghost use Rattle.server_laws.specs.ContextLaws.{InEachStep, KeepsBoot, KeepsGood, KeepsMade, KeepsRoots, MakesChild, MakesRoot};
ghost use Rattle.server_laws.specs.Good.{IsGood};
ghost use Rattle.server_laws.specs.View.{view};

use gss_mech::Mechanism;
use session_server::Extending;
use streams::Draws;

/// In every step of every server its opening's number stays, and the count of contexts that it made doesn't fall; a context
/// that is there was there, with the same root, or is made now. And a step leaves a server's contexts as they should be.
pub fn contexts_stay<X: Extending<C>, C, W: Draws>()
    ensures boot { (mech : X.Mech) → InEachStep (rules_of X.gated X.serves X.leaves X.lapses X.judges X.tells X.silent) (record { mic = X.Mech.mic_of; derived = X.Mech.derived }) (X.Mech.accepted mech) W.gives KeepsBoot }
    ensures made { (mech : X.Mech) → InEachStep (rules_of X.gated X.serves X.leaves X.lapses X.judges X.tells X.silent) (record { mic = X.Mech.mic_of; derived = X.Mech.derived }) (X.Mech.accepted mech) W.gives KeepsMade }
    ensures root { (mech : X.Mech) → InEachStep (rules_of X.gated X.serves X.leaves X.lapses X.judges X.tells X.silent) (record { mic = X.Mech.mic_of; derived = X.Mech.derived }) (X.Mech.accepted mech) W.gives KeepsRoots }
    ensures good { (mech : X.Mech) → InEachStep (rules_of X.gated X.serves X.leaves X.lapses X.judges X.tells X.silent) (record { mic = X.Mech.mic_of; derived = X.Mech.derived }) (X.Mech.accepted mech) W.gives KeepsGood }
{}

/// An INIT that is answered with a context makes it, and it is its own root (RFC 2203 section 5.2.2). A CREATE that gives a
/// context makes it, under that of the seal of its answer (RFC 7861 section 2.7).
pub fn contexts_are_made<X: Extending<C>, C, W: Draws>()
    ensures init { (mech : X.Mech) → InEachStep (rules_of X.gated X.serves X.leaves X.lapses X.judges X.tells X.silent) (record { mic = X.Mech.mic_of; derived = X.Mech.derived }) (X.Mech.accepted mech) W.gives (MakesRoot (record { mic = X.Mech.mic_of; derived = X.Mech.derived })) }
    ensures create { (mech : X.Mech) → InEachStep (rules_of X.gated X.serves X.leaves X.lapses X.judges X.tells X.silent) (record { mic = X.Mech.mic_of; derived = X.Mech.derived }) (X.Mech.accepted mech) W.gives (MakesChild (record { mic = X.Mech.mic_of; derived = X.Mech.derived })) }
{}

/// A server without contexts has them as they should be; and a second that comes by itself changes nothing that a wire sees.
pub fn contexts_rest<X: Extending<C>, C>()
    ensures start { (s : HostState X C) → s.contexts.boot < 2 ^ 32 → s.contexts.made ≤ s.steps → s.contexts.entries ≡ [] → IsGood s }
    ensures tick { (now : ℕ) (s : HostState X C) → view (ticked (rules_of X.gated X.serves X.leaves X.lapses X.judges X.tells X.silent) now s) ≡ view s }
    ensures good { (now : ℕ) (s : HostState X C) → IsGood s
        → IsGood (ticked (rules_of X.gated X.serves X.leaves X.lapses X.judges X.tells X.silent) now s) }
{}
