ghost use Rattle.std.specs.Prelude.{◌≡◌, ℕ, List, Option};
ghost use Rattle.caller_laws.specs.Good.{Identity, IsGood};
ghost use Rattle.caller_laws.specs.Lawful.{IsStep};
ghost use Rattle.caller_laws.specs.Moves.{Move, Send, Sends, done};
ghost use Rattle.caller_laws.specs.OneStep.Besides.{GoesBeside};
ghost use Rattle.caller_laws.specs.OneStep.Counting.{Counted};
ghost use Rattle.caller_laws.specs.OneStep.Order.{IsOrdered};
ghost use Rattle.caller_laws.specs.OneStep.Runs.{AreSpelled, IsOneStep, IsRun, MountStep};
ghost use Rattle.caller_laws.specs.OneStep.Whole.{IsLawfulStep, IsWholeStep};
ghost use Rattle.caller_laws.specs.View.{Above};
ghost use Rattle.mount.specs.State.{Mounted};
ghost use Rattle.mount.specs.Taking.{Means};
ghost use Rattle.mount.specs.declared.machine.SendAt.{SendAt};
ghost use Rattle.nfs_base.specs.declared.seal.End.{End};
ghost use Rattle.nfs_base.specs.declared.seal.Seal.{Seal};
ghost use Rattle.wire_model.specs.CallerLaws.{CallerLaws};
ghost use Rattle.wire_model.specs.Spelling.{Spelling};
ghost use Rattle.wire_model.specs.Wire as wire;
ghost use Rattle.wire_model.specs.Wire.{Acts, Caller};
ghost use Rattle.wire_spelling.specs.Calls.{xid_in};

use crate::steps_are_lawful;
use gss_mech::Mechanism;
use mount::what_goes_out_is_counted;

/// A run of a mount's steps obeys the laws of its server's wire as one step, where it goes in order and what is asked can be spelled:
/// a record is taken, what is awaited may be lost, and calls go out; or what is awaited goes out once more.
pub fn runs_are_lawful<M: Mechanism>()
    ensures { (mech : M) (principal : List ℕ) (who : Identity) (steps : List MountStep) (a b : Above) (m n : Mounted)
        → IsRun who (record { mic = M.mic_of; derived = M.derived; finished = M.finished mech principal }) steps a m b n
        → AreSpelled (record { mic = M.mic_of; derived = M.derived; finished = M.finished mech principal }) steps m
        → IsOrdered (record { mic = M.mic_of; derived = M.derived; finished = M.finished mech principal }) steps m → IsGood who m
        → IsOneStep who (record { mic = M.mic_of; derived = M.derived; finished = M.finished mech principal }) steps a b m n }
{
    steps_are_lawful::<M>();
    sends_are_counted();
}

/// A machine that does in the same step what is nothing to this server obeys the laws of the server's wire all the same.
pub fn others_go_beside()
    ensures { (spell : Spelling) (owner own : End) (v u w : Caller) (a c : Acts) → CallerLaws spell owner own v u a → GoesBeside spell owner v u w a c
        → CallerLaws spell owner own v w c }
{}

/// So each step of a machine above a mount obeys the laws of the server's wire, where what it asks there can be spelled.
pub fn whole_steps_are_lawful<M: Mechanism>()
    ensures { (mech : M) (principal : List ℕ) (who : Identity) (a b : Above) (m n : Mounted) (shown : Acts)
        (step : IsWholeStep who (record { mic = M.mic_of; derived = M.derived; finished = M.finished mech principal }) a b m n shown)
        → AreSpelled (record { mic = M.mic_of; derived = M.derived; finished = M.finished mech principal }) step.steps m → IsGood who m
        → IsLawfulStep who a b m n shown }
{
    runs_are_lawful::<M>();
    others_go_beside();
}

/// In no step does a mount's server change.
pub fn servers_stay()
    ensures { (means : Means) (move : Move) (m : Mounted) → (done means move m).mount.server ≡ m.server }
{}

/// What goes out in a step of a mount is a call by just the xid that it was given.
pub fn calls_have_their_xids<M: Mechanism>()
    ensures { (mech : M) (principal : List ℕ) (who : Identity) (a b : Above) (m : Mounted) (at : SendAt) (send : Send)
        → IsStep who (record { mic = M.mic_of; derived = M.derived; finished = M.finished mech principal }) a b m (Sends at send)
        → (bytes : List ℕ) (seal : Option Seal)
        → wire.Sends (done (record { mic = M.mic_of; derived = M.derived; finished = M.finished mech principal }) (Sends at send) m).shown bytes seal
        → xid_in bytes ≡ at.xid }
{
    steps_are_lawful::<M>();
    sends_are_counted();
}

/// Each call of a mount that goes out is the last one from then on, and where none goes out, the mount is as it was.
pub fn sends_are_counted()
    ensures { Counted }
{
    what_goes_out_is_counted();
}
