//! Laws of servers that stop.

ghost use Rattle.run_ends.specs.Ends.{run_machines};
ghost use Rattle.run_ends.specs.Mechanisms.Mechanisms.{KeepMechanisms};
ghost use Rattle.wire_run.specs.Stopping.{StopLaws};

use disk_model::CrashDisk;
use gss_mech::Mechanism;
use run_ends::mechanisms::mechanisms_stay;
use run_ends::stops::servers_open_anew;
use volume_stops::one_stop_is_one_crash;

/// What a stop of a server leaves, and that a server goes by one mechanism before it.
pub(crate) fn servers_stop<D: CrashDisk, M: Mechanism>()
    ensures stops { StopLaws D.Told D.size D.fuse D.timeline D.faults }
    ensures mechanisms { KeepMechanisms (run_machines M.mic_of M.derived M.started M.accepted M.finished) }
{
    servers_open_anew::<D>();
    one_stop_is_one_crash();
    mechanisms_stay::<M>();
}
