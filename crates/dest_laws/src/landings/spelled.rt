ghost use Rattle.std.specs.Prelude.{Bool, List};
ghost use Rattle.caller_laws.specs.Fitting.Fitting.{MountIsFit};
ghost use Rattle.caller_laws.specs.Good.{Identity};
ghost use Rattle.caller_laws.specs.Moves.{Move, done};
ghost use Rattle.caller_laws.specs.OneStep.Runs as runs;
ghost use Rattle.caller_laws.specs.OneStep.Runs.{IsRun, MountStep};
ghost use Rattle.caller_laws.specs.View.{Above};
ghost use Rattle.dest_laws.specs.Landings.Posted.{AreSpelled};
ghost use Rattle.mount.specs.State.{Mounted, fresh};
ghost use Rattle.mount.specs.Taking.{Means};
ghost use Rattle.nfs_base.specs.declared.seal.End.{End};

/// What a mount awaits in its slots has a spelling, of bytes, where the mount is fit.
pub fn what_is_awaited_is_spelled()
    ensures { (m : Mounted) → MountIsFit m → AreSpelled m }
{}

/// So it has at the beginning, and behind each step of the mount, and each run of them, whose calls can be spelled and go out as bytes.
pub fn moves_keep_calls_spelled()
    ensures begin { (server : End) (reclaims : Bool) → AreSpelled (fresh server reclaims) }
    ensures move_ { (means : Means) (move : Move) (m : Mounted) → runs.IsSpelled means.mic m move → AreSpelled m → AreSpelled (done means move m).mount }
    ensures run { (who : Identity) (means : Means) (steps : List MountStep) (a b : Above) (m n : Mounted) → IsRun who means steps a m b n
        → runs.AreSpelled means steps m → AreSpelled m → AreSpelled n }
{}
