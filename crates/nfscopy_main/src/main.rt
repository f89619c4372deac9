//! The program `nfscopy`: makes the real objects, and leaves all else to [`nfscopy::nfscopy`].
#![tactic(auto)]

ghost use Rattle.std.specs.Prelude.{◌≡◌, true, is_some, map, Some};
ghost use Rattle.nfs_base.specs.declared.side.Side.TheVariants.{Source, Dest};
ghost use Rattle.std.specs.String.{string_bytes};
ghost use Rattle.command_line.specs.Command.{command_of, is_copy, is_format, service_in};
ghost use Rattle.command_line.specs.Disks.{HasDisks};
ghost use Rattle.volume_format.specs.DiskWords.{disk_words};

use command_line::{Asked, ExitStatus, asked_service, disks_suffice, is_copy, is_format};
use disk_model::{CrashDisk, FileDisk, MemoryDisk};
use gss_mech::Realm;
use net_links::TcpNet;
use nfs_base::Side;
use nfscopy::nfscopy;
use outcome::Mem;
use realm_file::read_realm;
use std::alloc::Global;
use std::env::{self, Env};
use std::fs::{self, File, OpenOptions};
use std::io::{self, ErrorKind};
use std::marker::{Send, Sync};
use std::process::ExitCode;
use std::sync::Wait;
use std::thread::Threads;
use streams::{Reading, Writing};
use system_ends::{ReadDraws, SystemClock};
use wire_run::Disks;
use wire_xdr::Octets;

/// How many blocks the largest volume has: one of 64 files and 16,384 blocks in all.
const MOST_DISK_BLOCKS: u64 = 32_964;

/// How many bytes it has.
const ROOM: u64 = MOST_DISK_BLOCKS * 4096;

/// A folder: as a file it can be neither read nor written.
const FOLDER: &str = "/";

/// The system's random bytes.
const RANDOM: &str = "/dev/urandom";

/// The file of the realm, in the folder in which the program runs.
const REALM: &str = "realm.txt";

/// The exit status where a file can't be opened, or the realm's isn't right: nothing is printed then.
const NOT_OPENED: u8 = 11;

/// A server's disk in a run: in memory, with room for the largest volume.
fn disk(alloc: Global) -> MemoryDisk {
    MemoryDisk::new(alloc, MOST_DISK_BLOCKS, Vec::new(alloc))
}

/// The realm of a run: the client's user and the destination, each with its key.
fn realm(alloc: Global) -> Mem<Realm> {
    let user = (Octets::from_slice(alloc, b"user")?, [1; 32]);
    let dest = (Octets::from_slice(alloc, b"dest")?, [2; 32]);
    Realm::new(alloc, &[user, dest])
}

/// The words of the command line without the program's name. A word that isn't UTF-8 makes the whole
/// command line one that no command has.
fn words(rt: &(impl Env + AllocGlobal)) -> io::Result<Vec<String>> {
    let mut words = Vec::new(rt.alloc());
    let given = match env::args(rt) {
        Ok(given) => given,
        Err(error) if error.kind() == ErrorKind::InvalidData => return Ok(words),
        Err(error) => return Err(error),
    };
    for word in given.skip(1) {
        words.push(word)?;
    }
    Ok(words)
}

/// Does what the words ask for over these disks and this net, with these threads, and answers the exit status.
fn call<R: Threads + Wait + Sync, D: CrashDisk + Drop + Send>(
    rt: &HostRuntime,
    threads: &R,
    words: &[String],
    disks: Disks<D>,
    realm: &Realm,
    net: TcpNet<'_, HostRuntime>,
) -> ExitCode
    requires { HasDisks (disk_words D.Told D.faults D.size D.timeline) (command_of (map string_bytes words.now)) disks.source disks.dest }
{
    let Ok(random) = File::open(rt, RANDOM) else {
        return ExitCode::from(NOT_OPENED);
    };
    let mut input = Reading::new(rt.reader());
    let mut output = Writing::new(io::writer(rt));
    let (mut disks, mut net) = (disks, net);
    let status = nfscopy(
        threads,
        rt.alloc(),
        words,
        &mut input,
        &mut output,
        &mut disks,
        realm,
        SystemClock::new(rt),
        ReadDraws::new(random),
        &mut net,
    );
    ExitCode::from(status)
}

/// Opens the file of a volume at a path, which may be made where there is none. It is locked until the program ends: two programs that
/// write one volume would destroy it, so one that another has open isn't opened.
fn open(rt: &HostRuntime, path: &str, make: bool) -> io::Result<File> {
    let file = OpenOptions::new()
        .read(true)
        .write(true)
        .create(make)
        .open(rt, path)?;
    file.try_lock()?;
    Ok(file)
}

/// The disk of the file at a path, for a volume that is to be made. A shorter file gets room for the largest one.
fn new_disk(rt: &HostRuntime, path: &str) -> io::Result<FileDisk> {
    let file = open(rt, path, true)?;
    let len = file.metadata()?.len();
    if len >= ROOM {
        return Ok(FileDisk::new(file, len));
    }
    file.set_len(ROOM)?;
    Ok(FileDisk::new(file, ROOM))
}

/// The disk of the file at a path, which is there.
fn old_disk(rt: &HostRuntime, path: &str) -> io::Result<FileDisk> {
    let file = open(rt, path, false)?;
    let len = file.metadata()?.len();
    Ok(FileDisk::new(file, len))
}

/// Does what the words of `format` ask for, on the disk of the file that they name.
fn on_new_file<R: Threads + Wait + Sync>(
    rt: &HostRuntime,
    threads: &R,
    words: &[String],
    realm: &Realm,
) -> ExitCode
    requires { is_format (command_of (map string_bytes words.now)) ≡ true }
{
    let not_opened = ExitCode::from(NOT_OPENED);
    let Some(path) = words.get(1) else {
        return not_opened;
    };
    let Ok(disk) = new_disk(rt, path.as_str()) else {
        return not_opened;
    };
    let disks = Disks {
        source: Some(disk),
        dest: None,
    };
    disks_suffice::<FileDisk>();
    call(rt, threads, words, disks, realm, TcpNet::dialing(rt))
}

/// The realm of the file `realm.txt`, or the exit status where there is none.
fn realm_of_file(rt: &HostRuntime) -> Result<Realm, u8> {
    let text = match fs::read(rt, REALM) {
        Ok(text) => text,
        Err(error) if error.kind() == ErrorKind::OutOfMemory => {
            return Err(ExitStatus::NoMemory.code());
        }
        Err(_) => return Err(NOT_OPENED),
    };
    match read_realm(rt.alloc(), text.as_slice()) {
        Ok(Some(realm)) => Ok(realm),
        Ok(None) => Err(NOT_OPENED),
        Err(_) => Err(ExitStatus::NoMemory.code()),
    }
}

/// Does what the words of a server ask for, on the disk of the file that they name, at its port. A port at which nothing can listen is a
/// fault of the net; the file is as it was then.
fn at_port<R: Threads + Wait + Sync>(
    rt: &HostRuntime,
    threads: &R,
    words: &[String],
    asked: Asked,
) -> ExitCode
    requires { service_in (command_of (map string_bytes words.now)) ≡ Some asked }
{
    let realm = match realm_of_file(rt) {
        Ok(realm) => realm,
        Err(status) => return ExitCode::from(status),
    };
    let not_opened = ExitCode::from(NOT_OPENED);
    let Some(path) = words.get(1) else {
        return not_opened;
    };
    let Ok(disk) = old_disk(rt, path.as_str()) else {
        return not_opened;
    };
    let Ok(net) = TcpNet::listening(rt, asked.service.port) else {
        return ExitCode::from(ExitStatus::NetFault.code());
    };
    let disks = disks_of(asked.side, disk);
    disks_suffice::<FileDisk>();
    call(rt, threads, words, disks, &realm, net)
}

/// A server's disk, in its place.
fn disks_of(side: Side, disk: FileDisk) -> Disks<FileDisk>
    ensures source { side ≡ Source → is_some result.source ≡ true }
    ensures dest { side ≡ Dest → is_some result.dest ≡ true }
{
    match side {
        Side::Source => Disks {
            source: Some(disk),
            dest: None,
        },
        Side::Dest => Disks {
            source: None,
            dest: Some(disk),
        },
    }
}

/// Does what the words of `copy` ask for, by the realm of its file.
fn over_links<R: Threads + Wait + Sync>(rt: &HostRuntime, threads: &R, words: &[String]) -> ExitCode
    requires { is_copy (command_of (map string_bytes words.now)) ≡ true }
{
    let realm = match realm_of_file(rt) {
        Ok(realm) => realm,
        Err(status) => return ExitCode::from(status),
    };
    let disks: Disks<MemoryDisk> = Disks {
        source: None,
        dest: None,
    };
    disks_suffice::<MemoryDisk>();
    call(rt, threads, words, disks, &realm, TcpNet::dialing(rt))
}

/// Takes the numbers of those standard streams that are closed, so that no file and no link gets them: what it brings would be read as
/// the input, and what is printed would go into it. Of what has such a number a read fails, and so does a write.
fn taken(rt: &HostRuntime) -> io::Result<[File; 3]> {
    Ok([
        File::open(rt, FOLDER)?,
        File::open(rt, FOLDER)?,
        File::open(rt, FOLDER)?,
    ])
}

/// Does what the program's words ask for.
fn do_words<R: Threads + Wait + Sync>(rt: &HostRuntime, threads: &R) -> ExitCode {
    let Ok(words) = words(rt) else {
        return ExitCode::from(ExitStatus::NoMemory.code());
    };
    if let Some(asked) = asked_service(&words) {
        return at_port(rt, threads, &words, asked);
    }
    if is_copy(&words) {
        return over_links(rt, threads, &words);
    }
    let Ok(realm) = realm(rt.alloc()) else {
        return ExitCode::from(ExitStatus::NoMemory.code());
    };
    if is_format(&words) {
        return on_new_file(rt, threads, &words, &realm);
    }
    let disks = Disks {
        source: Some(disk(rt.alloc())),
        dest: Some(disk(rt.alloc())),
    };
    disks_suffice::<MemoryDisk>();
    call(rt, threads, &words, disks, &realm, TcpNet::dialing(rt))
}

fn main(rt: HostRuntime) -> ExitCode {
    match taken(&rt) {
        Ok(_taken) => do_words(&rt, &rt),
        Err(_) => ExitCode::from(NOT_OPENED),
    }
}
