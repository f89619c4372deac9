ghost use Rattle.std.specs.Prelude.{ℕ};
ghost use Rattle.session_server.specs.Host.{HostState, rules_of};
ghost use Rattle.commit_laws.specs.Commits.{KeepsCommits};
ghost use Rattle.commit_laws.specs.Run.{Event, IsRun};

use crate::calling::Calling;
use copy_model::volume_effects;
use streams::Draws;

/// In every run of every server, whatever the server adds and its disk does: where a WRITE, and behind it a COMMIT of its file,
/// are executed and answered with status 0 and the same verifier (RFC 8881 section 18.3.3), each byte of the WRITE that no write
/// of the volume reached since is safe. Whoever reads it, and whatever a crash leaves there, in this or any later step, it is
/// the byte that was written.
pub fn commits_are_kept<X: Calling<C>, C, W: Draws>()
    ensures { (mech : X.Mech) (host : ℕ → HostState X C) (event : ℕ → Event)
        → IsRun (rules_of X.gated X.serves X.leaves X.lapses X.judges X.tells X.silent) (record { mic = X.Mech.mic_of; derived = X.Mech.derived }) (X.Mech.accepted mech) W.gives host event
        → KeepsCommits (rules_of X.gated X.serves X.leaves X.lapses X.judges X.tells X.silent) (record { mic = X.Mech.mic_of; derived = X.Mech.derived }) host event }
{
    volume_effects();
}
