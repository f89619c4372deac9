ghost use Rattle.std.specs.Prelude.{◌≡◌, ◌+◌, ◌≤◌, ℕ, List, Ok, take};
ghost use Rattle.client_core.specs.Endings.{Ways};
ghost use Rattle.client_core.specs.State.{ClientState, new_client};
ghost use Rattle.client_laws.specs.Turns.{IsTurn, Turn};
ghost use Rattle.client_steps.specs.declared.setting.Setting.{Setting};
ghost use Rattle.outbox.specs.declared.outgoing.Outbox.{Outbox};
ghost use Rattle.run_ends.specs.Ends.{RunStep, RunWorld, count_gives, run_machines, words_of};
ghost use Rattle.run_promise.specs.Client.Accepted.{AreAccepted};
ghost use Rattle.run_promise.specs.Client.Along.{MayGo};
ghost use Rattle.wire_machine.specs.Check.{Reading};
ghost use Rattle.wire_machine.specs.Runs.{End, Numbered, Runs, events_in};
ghost use Rattle.wire_model.specs.Meaning.{Meaning};
ghost use Rattle.wire_model.specs.Spelling.{Spelling};
ghost use Rattle.wire_schedule.specs.Admission.{at_start};
ghost use Rattle.wire_schedule.specs.ScheduleText.{schedule_of};
ghost use Rattle.wire_schedule.specs.declared.context.Context.{Context};
ghost use Rattle.wire_schedule.specs.declared.directive.Entry.{Entry};

use client_laws::{copies_begin_by_command, each_step_counts_one};
use gss_mech::Mechanism;
use streams::{CountDraws, Draws};
use wire_schedule::{line_events, schedule_lines};

/// The events of a schedule's text are accepted, and so is each front of accepted ones.
pub fn schedules_are_accepted()
    ensures whole { (text : List ℕ) (entries : List Entry) → schedule_of text ≡ Ok entries → AreAccepted at_start (events_in entries) }
    ensures fronts { (context : Context) (events : List Numbered) (n : ℕ) → AreAccepted context events → AreAccepted context (take n events) }
{
    line_events();
    schedule_lines();
}

/// In each step a client makes 34 calls at most: when all that it awaits goes out again.
pub fn each_step_calls_few<M, W: Draws>()
    ensures { (ways : Ways) (turn : Turn) (c d : ClientState M) (v w : W) (out : Outbox)
        → IsTurn ways W.gives turn c v w (d, out) → d.calls ≤ c.calls + 34 }
{}

/// Along the run of accepted events, from a new client on, each act of the client is one that it may make, is within its bounds, and
/// leaves an xid for the next call.
pub fn clients_may_go<M: Mechanism>()
    ensures { (read : Reading) (spell : Spelling) (meaning : Meaning) (s : Setting M) (first : RunWorld M) (events : List Numbered)
        (steps : List (RunStep M)) (end : End)
        → AreAccepted at_start events → first.client ≡ new_client s
        → Runs (run_machines M.mic_of M.derived M.started M.accepted M.finished) read first events steps end
        → MayGo (words_of M.mic_of M.derived M.started M.accepted M.finished count_gives) spell meaning first steps }
{
    each_step_calls_few::<M, CountDraws>();
    each_step_counts_one::<M, CountDraws>();
    copies_begin_by_command::<M, CountDraws>();
}
