ghost use Rattle.std.specs.Prelude.{map};
ghost use Rattle.std.specs.String.{string_bytes};
ghost use Rattle.command_line.specs.Command.{command_of};
ghost use Rattle.link_server.specs.Keeping.{books_of};
ghost use Rattle.client_core.specs.Endings.{ways_of};
ghost use Rattle.linked_copy.specs.Nets as nets;
ghost use Rattle.command_line.specs.Disks.{HasDisks};
ghost use Rattle.nfscopy.specs.Ends.{Ends};
ghost use Rattle.port_commands.specs.Copying.{copy_words};
ghost use Rattle.port_commands.specs.Serving.{dest_by, service_words, source_by};
ghost use Rattle.nfscopy.specs.Outside.{outside};
ghost use Rattle.server_volume.specs.Store.{seat_of};
ghost use Rattle.source_server.specs.Serving.{net_words};
ghost use Rattle.volume_format.specs.DiskWords.{disk_words};
ghost use Rattle.nfscopy.specs.RunEnds.{run_words};

use crate::commands::{do_format, do_gen, do_run, do_show};
use crate::run::usage;
use command_line::Command;
use disk_model::CrashDisk;
use gss_mech::Mechanism;
use net_links::Net;
use port_commands::{copy, serve_as_dest, serve_as_source};
use std::alloc::Global;
use std::marker::{Send, Sync};
use std::sync::Wait;
use std::thread::Threads;
use streams::{Clock, Draws, Sink, Source};
use wire_run::Disks;

/// Does what the words ask for, and answers the exit status. The words don't include the program's name.
///
/// `run` reads a schedule from `input`, carries it out with a client and two servers over the two disks, which seal their
/// records by the mechanism, and puts the transcript to `output`; `gen N` does so with a schedule of its own, which copies a file
/// of N MiB, and puts a summary; `show` reads a stream of records and puts what they hold, line by line; `format PATH FILES BLOCKS
/// TAG` makes an empty volume on the disk in the source's place, which is that of the file PATH; `serve-source PATH PORT CONNS`
/// serves the volume on that disk to so many connections of the net, with the time of `clock` and the draws of `draws`, and `serve-dest
/// PATH PORT CONNS WORKERS SPORT` that on the disk in the destination's place, with workers that fetch from the port SPORT; `copy SPORT
/// DPORT SFILE SOFF DFILE DOFF COUNT c` (or `n`) makes one copy by a client of the servers at these ports, with the same time and draws,
/// and puts what became of it. Words of no command put the line `usage`. What each status says of the input, the output, the disks and
/// the net stands in `Ends`.
pub fn nfscopy<
    R: Threads + Wait + Sync,
    S: Source,
    K: Sink,
    D: CrashDisk + Drop + Send,
    M: Mechanism + Sync,
    C: Clock + Drop + Send,
    W: Draws + Drop + Send,
    F: Source + Send + Drop,
    T: Sink + Send + Drop,
    N: Net<From = F, To = T>,
>(
    rt: &R,
    alloc: Global,
    words: &[String],
    input: &mut S,
    output: &mut K,
    disks: &mut Disks<D>,
    mech: &M,
    clock: C,
    draws: W,
    net: &mut N,
) -> u8
    requires { HasDisks (disk_words D.Told D.faults D.size D.timeline) (command_of (map string_bytes words.now)) disks.old.source disks.old.dest }
    ensures { Ends (disk_words D.Told D.faults D.size D.timeline) (run_words mech.entry M.mic_of M.derived (λ m. M.started m.now) (λ m. M.accepted m.now) (λ m. M.finished m.now))
        (service_words (net_words N.Told N.coming N.faults (books_of N.hung N.up N.accepted))
        (source_by (disk_words D.Told D.faults D.size D.timeline) mech.entry clock draws (seat_of D.size D.fuse D.timeline D.faults) M.mic_of M.derived (λ m. M.accepted m.now) W.gives)
        (dest_by (disk_words D.Told D.faults D.size D.timeline) mech.entry (seat_of D.size D.fuse D.timeline D.faults) M.mic_of M.derived (λ m. M.started m.now) (λ m. M.accepted m.now) (λ m. M.finished m.now) W.gives))
        (copy_words (ways_of M.mic_of M.derived (λ m. M.finished m.now) (λ m. M.started m.now) (λ m. M.accepted m.now)) W.gives W.faults mech.entry draws
        (nets.net_words N.Told (nets.books_of N.coming N.accepted N.up N.hung) N.faults))
        (command_of (map string_bytes words.now))
        (outside (S.gives input.old).left (K.takes output.old).taken (S.gives input.old).faults (K.takes output.old).faults disks.old.source disks.old.dest)
        (outside (S.gives input.new).left (K.takes output.new).taken (S.gives input.new).faults (K.takes output.new).faults disks.new.source disks.new.dest)
        net.old net.new result }
{
    let Some(command) = Command::from_words(words) else {
        return usage(output).code();
    };
    match command {
        Command::Run => do_run(alloc, input, output, disks, mech),
        Command::Gen(plan) => do_gen(alloc, plan, output, disks, mech),
        Command::Show => do_show(alloc, input, output),
        Command::Format(new) => do_format(alloc, new, output, disks),
        Command::ServeSource(service) => {
            let source = &mut disks.source;
            serve_as_source(rt, alloc, service, mech, clock, draws, output, source, net)
        }
        Command::ServeDest(order) => {
            let dest = &mut disks.dest;
            serve_as_dest(rt, alloc, order, mech, clock, draws, output, dest, net)
        }
        Command::Copy(order) => copy(alloc, order, mech, clock, draws, output, net),
    }
}
