ghost use Rattle.std.specs.Prelude.{◌≡◌, ℕ, List, Option};
ghost use Rattle.gss_mech.specs.Tokens.{IsSized};
ghost use Rattle.gss_mech.specs.declared.mechanism.Accepted.{Accepted};
ghost use Rattle.rpc_calls.specs.Judging.{judged_of};
ghost use Rattle.rpc_calls.specs.declared.call.Judged.{Judged};
ghost use Rattle.rpc_calls.specs.declared.call.TheConstants.Program as programs;
ghost use Rattle.session_server.specs.Host.{HostState, Stepped, rules_of};
ghost use Rattle.session_server.specs.Steps.{IsJudgedTurn};
ghost use Rattle.wire_xdr.specs.Cursor.{IsBytes};
ghost use Rattle.reply_laws.specs.Answers.{Answers};

use session_server::Extending;
use streams::Draws;

/// In every step of every server in which a record comes on a connection, what goes out is a reply, and is sealed under a context
/// of the server's, as is what it accepts, where codes are as long as they are to be.
pub fn servers_send_replies<X: Extending<C>, C, W: Draws>()
    ensures answers { (tokens : List ℕ → List ℕ → Option Accepted) (second conn : ℕ) (bytes : List ℕ) (s : HostState X C) (before after : W) (t : Stepped X C)
        → IsSized X.Mech.mic_of → IsBytes bytes
        → IsJudgedTurn (judged_of X.Mech.mic_of second programs.NFS bytes s.contexts) (rules_of X.gated X.serves X.leaves X.lapses X.judges X.tells X.silent)
        (record { mic = X.Mech.mic_of; derived = X.Mech.derived }) tokens W.gives second conn s before after t
        → Answers s.contexts.owner t.out }
    // And the contexts stay its own.
    ensures owner { (tokens : List ℕ → List ℕ → Option Accepted) (second conn : ℕ) (judged : Judged) (s : HostState X C) (before after : W) (t : Stepped X C)
        → IsJudgedTurn judged (rules_of X.gated X.serves X.leaves X.lapses X.judges X.tells X.silent) (record { mic = X.Mech.mic_of; derived = X.Mech.derived })
        tokens W.gives second conn s before after t
        → t.host.contexts.owner ≡ s.contexts.owner }
{}
