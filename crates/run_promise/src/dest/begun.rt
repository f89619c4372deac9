ghost use Rattle.std.specs.Prelude.{List};
ghost use Rattle.dest_core.specs.Stepping.{DestState};
ghost use Rattle.run_ends.specs.Ends.{RunWorld};
ghost use Rattle.run_ends.specs.First.{IsFirst};
ghost use Rattle.run_ends.specs.Opening.{IsDestAnew};
ghost use Rattle.run_promise.specs.Dest.Begun.{IsBegun};
ghost use Rattle.server_volume.specs.declared.used.Used.{Used};
ghost use Rattle.volume_stops.specs.declared.kept.Kept.{Kept};
ghost use Rattle.wire_machine.specs.Runs.{Numbered};

use gss_mech::Mechanism;

/// In the first world of a run the destination was just opened.
pub fn destinations_begin_fresh<M: Mechanism>()
    ensures { (mech : M) (events : List Numbered) (first : RunWorld M) → IsFirst mech events first → IsBegun mech first.dest }
{}

/// So was one that stopped and was opened anew, with the mechanism that it had before.
pub fn destinations_begin_anew<M: Mechanism>()
    ensures { (s t : DestState M) (used : List Used) (kept : Kept) → IsDestAnew s used kept t → IsBegun s.state.machine.extra.mech t }
{}
