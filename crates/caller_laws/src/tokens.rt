ghost use Rattle.std.specs.Prelude.{◌≡◌, ℕ, ◌<◌, ◌^◌, List, Option, Some};
ghost use Rattle.gss_mech.specs.Tokens.{IsNonce};
ghost use Rattle.mount.specs.Sending.{begun, begun_anew};
ghost use Rattle.mount.specs.State.{Mounted};
ghost use Rattle.mount.specs.declared.machine.SendAt.{SendAt};
ghost use Rattle.mount.specs.declared.machine.Sent.{Sent};
ghost use Rattle.nfs_base.specs.declared.seal.End.{End};
ghost use Rattle.wire_spelling.specs.Calls.{begun_by};
ghost use Rattle.caller_laws.specs.Good.{Identity, IsGood, IsOwnToken};
ghost use Rattle.caller_laws.specs.Tokens.{known_by, principal_in};

use gss_mech::{Mechanism, tokens_agree};

/// What a principal starts is a token of its own end, to every server of the same mechanism, whatever nonce that draws: so an
/// INIT that a mount sends is accepted as from its own principal, also where it goes out anew (RFC 2203 section 5.2.2).
pub fn tokens_are_their_senders<M: Mechanism>()
    ensures token { (mech : M) (principal nonce other token : List ℕ) (whose : List ℕ → Option End) (own : End) → IsNonce nonce → IsNonce other
        → whose principal ≡ Some own → M.started mech principal nonce ≡ Some token → IsOwnToken (known_by (M.accepted mech) other whose own) token }
    ensures sent { (mech : M) (principal nonce other : List ℕ) (whose : List ℕ → Option End) (own : End) (at : SendAt) (m : Mounted) (sent : Sent)
        → IsNonce nonce → IsNonce other → whose principal ≡ Some own → at.xid < 2 ^ 32
        → (begun at nonce (M.started mech principal nonce) m).0 ≡ Some sent → begun_by (principal_in (M.accepted mech) other) whose sent.bytes ≡ Some own }
    ensures anew { (who : Identity) (at : SendAt) (m : Mounted) (sent : Sent) → IsGood who m → at.xid < 2 ^ 32
        → (begun_anew at m).0 ≡ Some sent → begun_by who.accepts who.whose sent.bytes ≡ Some who.own }
{
    tokens_agree::<M>();
}
