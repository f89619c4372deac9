ghost use Rattle.std.specs.Prelude.{ℕ, Bool, List};
ghost use Rattle.caller_laws.specs.Fitting.Answers.{ToldIsFit};
ghost use Rattle.caller_laws.specs.Fitting.Fitting.{MountIsFit};
ghost use Rattle.caller_laws.specs.Fitting.Moving.{GivesBytes, IsSpelledAt, MoveIsFit, SendsFit};
ghost use Rattle.caller_laws.specs.Moves.{Move, Send, done};
ghost use Rattle.gss_ctx.specs.Seals.{Mic};
ghost use Rattle.mount.specs.State.{Mounted, fresh};
ghost use Rattle.mount.specs.Taking.{Means, taken_at};
ghost use Rattle.mount.specs.declared.machine.SendAt.{SendAt};
ghost use Rattle.nfs_base.specs.declared.seal.End.{End};
ghost use Rattle.wire_xdr.specs.Cursor.{IsBytes};

/// A mount that was just opened is fit, and each step that keeps to the bounds leaves one that is.
pub fn mounts_stay_fit()
    ensures begin { (server : End) (reclaims : Bool) → MountIsFit (fresh server reclaims) }
    ensures stay { (means : Means) (move : Move) (m : Mounted) → GivesBytes means.mic → MountIsFit m → MoveIsFit m move → MountIsFit (done means move m).mount }
{}

/// What a fit mount asks has a spelling that is short enough to be sent, and what goes out of it is bytes.
pub fn what_is_asked_is_spelled()
    ensures { (mic : Mic) (at : SendAt) (send : Send) (m : Mounted) → GivesBytes mic → MountIsFit m → SendsFit m at send → IsSpelledAt mic m at send }
{}

/// What a record tells that is bytes, has numbers below their bounds, and handles, stateids and data that are bytes.
pub fn what_is_heard_is_fit()
    ensures { (means : Means) (place : ℕ) (message : List ℕ) (m : Mounted) → IsBytes message → MountIsFit m → ToldIsFit (taken_at means place message m).0.told }
{}
