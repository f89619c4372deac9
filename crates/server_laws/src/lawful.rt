ghost use Rattle.std.specs.Prelude.{◌≡◌, [], ℕ};
ghost use Rattle.nfs_base.specs.declared.seal.End.{End};
ghost use Rattle.sess_slots.specs.Lives.{no_clients};
ghost use Rattle.session_server.specs.Host.{HostState, rules_of};
ghost use Rattle.session_server.specs.Steps.{ticked};
ghost use Rattle.wire_model.specs.ServerLaws.{ServerLaws, ServerStart};
ghost use Rattle.wire_model.specs.Spelling.{Spelling};
ghost use Rattle.server_laws.specs.ContextLaws.{InEachStep};
ghost use Rattle.server_laws.specs.Lawful.{KeepsOwner, ObeysLaws, SealsOwn, SendsReplies, no_acts};
ghost use Rattle.server_laws.specs.View.{view};

use session_server::Extending;
use streams::Draws;

/// Every step of every server obeys all the laws that a server owes a wire, whatever the server adds and its disk does, and
/// leaves its owner, by whose seals alone it seals what it sends, which are replies.
pub fn steps_are_lawful<X: Extending<C>, C, W: Draws>()
    ensures laws { (mech : X.Mech) → InEachStep (rules_of X.gated X.serves X.leaves X.lapses X.judges X.tells X.silent) (record { mic = X.Mech.mic_of; derived = X.Mech.derived }) (X.Mech.accepted mech) W.gives (ObeysLaws (record { mic = X.Mech.mic_of; derived = X.Mech.derived })) }
    ensures owner { (mech : X.Mech) → InEachStep (rules_of X.gated X.serves X.leaves X.lapses X.judges X.tells X.silent) (record { mic = X.Mech.mic_of; derived = X.Mech.derived }) (X.Mech.accepted mech) W.gives KeepsOwner }
    ensures seals { (mech : X.Mech) → InEachStep (rules_of X.gated X.serves X.leaves X.lapses X.judges X.tells X.silent) (record { mic = X.Mech.mic_of; derived = X.Mech.derived }) (X.Mech.accepted mech) W.gives (SealsOwn (record { mic = X.Mech.mic_of; derived = X.Mech.derived })) }
    ensures replies { (mech : X.Mech) → InEachStep (rules_of X.gated X.serves X.leaves X.lapses X.judges X.tells X.silent) (record { mic = X.Mech.mic_of; derived = X.Mech.derived }) (X.Mech.accepted mech) W.gives (SendsReplies (record { mic = X.Mech.mic_of; derived = X.Mech.derived })) }
{}

/// A server without contexts and clients is one that starts, and a second that comes by itself obeys the laws too.
pub fn rests_are_lawful<X: Extending<C>, C>()
    ensures start { (s : HostState X C) → s.contexts.entries ≡ [] → s.state.sessions ≡ no_clients s.state.sessions.boot → ServerStart (view s) }
    ensures tick { (spell : Spelling) (owner : End) (now : ℕ) (s : HostState X C)
        → ServerLaws spell owner (view s) (view (ticked (rules_of X.gated X.serves X.leaves X.lapses X.judges X.tells X.silent) now s)) no_acts }
{}
