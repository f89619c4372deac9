ghost use Rattle.std.specs.Prelude.{◌≡◌, ◌++◌, ◌∷◌, [], ℕ, List, Option, None, Some, IsTrue, length};
ghost use Rattle.streams.specs.Stream.{Taking};
ghost use Rattle.wire_log.specs.Keeping.{reading};
ghost use Rattle.wire_machine.specs.Runs.{numbered, Numbered};
ghost use Rattle.run_ends.specs.Ends.{run_machines};
ghost use Rattle.wire_run.specs.Run.{RanHasCause, RanIs};
ghost use Rattle.wire_run.specs.Running.{at_rest, mech_of, HasDisks, Running};
ghost use Rattle.wire_run.specs.Trace.{events_at, EndPuts, Happen, Happens};
ghost use Rattle.wire_run.specs.declared.run.Ran.{Ran};
ghost use Rattle.wire_run.specs.declared.run.Ran.TheVariants.{Whole};
ghost use Rattle.wire_schedule.specs.Expansion.{after_all, are_admitted};
ghost use Rattle.wire_schedule.specs.declared.event.Event.{Event};

use disk_model::Disk;
use gss_mech::Mechanism;

/// Events that happen one after the other: one alone, others behind them, and none behind the one with which a run ends. What may come
/// next goes by them, and the disks stay there.
pub fn events_follow_events<D: Disk, M: Mechanism>()
    ensures one { (e : Numbered) (old new : Running D M) (before now : Taking) (result : Option Ran)
        → Happens D.Told (run_machines M.mic_of M.derived M.started M.accepted M.finished) reading D.faults D.size e old new before now result
        → Happen D.Told (run_machines M.mic_of M.derived M.started M.accepted M.finished) reading D.faults D.size (e ∷ []) old new before now result }
    ensures others { (xs ys : List Numbered) (old middle new : Running D M) (before put now : Taking) (result : Option Ran)
        → Happen D.Told (run_machines M.mic_of M.derived M.started M.accepted M.finished) reading D.faults D.size xs old middle before put None
        → Happen D.Told (run_machines M.mic_of M.derived M.started M.accepted M.finished) reading D.faults D.size ys middle new put now result
        → Happen D.Told (run_machines M.mic_of M.derived M.started M.accepted M.finished) reading D.faults D.size (xs ++ ys) old new before now result }
    ensures last { (xs ys : List Numbered) (old new : Running D M) (before now : Taking) (end : Ran)
        → Happen D.Told (run_machines M.mic_of M.derived M.started M.accepted M.finished) reading D.faults D.size xs old new before now (Some end)
        → Happen D.Told (run_machines M.mic_of M.derived M.started M.accepted M.finished) reading D.faults D.size (xs ++ ys) old new before now (Some end) }
    ensures context { (line : ℕ) (events : List Event) (old new : Running D M) (before now : Taking)
        → Happen D.Told (run_machines M.mic_of M.derived M.started M.accepted M.finished) reading D.faults D.size (numbered line events) old new before now None
        → new.context ≡ after_all old.context events }
    ensures disks { (events : List Numbered) (old new : Running D M) (before now : Taking) (result : Option Ran) → HasDisks old
        → Happen D.Told (run_machines M.mic_of M.derived M.started M.accepted M.finished) reading D.faults D.size events old new before now result
        → HasDisks new }
{}

/// So a run goes from its beginning to its last line, or ends with an event.
pub fn events_make_runs<D: Disk, M: Mechanism>()
    ensures whole { (events : List Numbered) (start new : Running D M) (before middle now : Taking) → start ≡ at_rest (mech_of start) start.source start.dest
        → IsTrue (are_admitted start.context (events_at events))
        → Happen D.Told (run_machines M.mic_of M.derived M.started M.accepted M.finished) reading D.faults D.size events start new before middle None
        → EndPuts (length new.log) middle now Whole
        → RanIs D.Told (run_machines M.mic_of M.derived M.started M.accepted M.finished) reading D.faults D.size (mech_of start) events start new before.taken now.taken Whole }
    ensures over { (events : List Numbered) (start new : Running D M) (before now : Taking) (end : Ran) → start ≡ at_rest (mech_of start) start.source start.dest
        → IsTrue (are_admitted start.context (events_at events))
        → Happen D.Told (run_machines M.mic_of M.derived M.started M.accepted M.finished) reading D.faults D.size events start new before now (Some end)
        → RanIs D.Told (run_machines M.mic_of M.derived M.started M.accepted M.finished) reading D.faults D.size (mech_of start) events start new before.taken now.taken end
        × RanHasCause D.faults start new before.faults now.faults end }
    ensures listed { (line : ℕ) (events : List Event) → events_at (numbered line events) ≡ events }
{}
