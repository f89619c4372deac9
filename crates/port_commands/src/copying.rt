//! `copy`: one copy by a client of two servers. It waits for them.

ghost use Rattle.std.specs.Prelude.{◌≡◌, ◌≤◌, IfOk};
ghost use Rattle.client_core.specs.Endings.{ways_of};
ghost use Rattle.client_steps.specs.Setting.{IsFit};
ghost use Rattle.linked_copy.specs.Ends.{CopyEnds};
ghost use Rattle.linked_copy.specs.Nets.{books_of, net_words};
ghost use Rattle.port_commands.specs.Copying.{setting_by};
ghost use Rattle.command_line.specs.ExitStatus.{EndsAs, copy_status};
ghost use Rattle.single_copy.specs.Turns.{conduct_of};

use client_steps::Setting;
use command_line::copy_code;
use gss_mech::Mechanism;
use linked_copy::{CopyEnd, CopyOrder, copy_over};
use net_links::Net;
use outcome::Mem;
use run_ends::{dest_place, source_place, user};
use std::alloc::Global;
use streams::{Clock, Draws, Sink, Source};

/// Makes a copy over links that are dialed for it.
pub fn copy<
    K: Sink,
    M: Mechanism,
    C: Clock + Drop,
    W: Draws + Drop,
    F: Source + Drop,
    T: Sink + Drop,
    N: Net<From = F, To = T>,
>(alloc: Global, order: CopyOrder, mech: M, clock: C, draws: W, output: &mut K, net: &mut N) -> u8
    ensures ends { EndsAs copy_status (CopyEnds (conduct_of (ways_of M.mic_of M.derived M.finished M.started M.accepted) W.gives W.faults order.copy) (setting_by mech)
        (net_words N.Told (books_of N.coming N.accepted N.up N.hung) N.faults) draws
        (K.takes output.old).taken (K.takes output.new).taken (K.takes output.old).faults (K.takes output.new).faults net.old net.new) result }
    ensures later { (K.takes output.old).faults ≤ (K.takes output.new).faults }
{
    let Ok(setting) = setting(alloc, mech) else {
        return copy_code(CopyEnd::NoMemory);
    };
    copy_code(copy_over(alloc, order, setting, clock, draws, output, net))
}

/// What the client of every schedule knows, too.
#[tactic(auto, unfolding(nfs_base::specs::Forms::net_loc))]
fn setting<M: Mechanism>(alloc: Global, mech: M) -> Mem<Setting<M>>
    ensures is { IfOk result (λ setting. setting ≡ setting_by mech) }
    ensures fit { IfOk result IsFit }
{
    Ok(Setting {
        mech,
        me: user(alloc)?,
        source: source_place(alloc)?,
        dest: dest_place(alloc)?,
    })
}
