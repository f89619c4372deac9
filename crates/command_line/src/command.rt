ghost use Rattle.std.specs.Prelude.{◌≡◌, ◌≤◌, ◌↔◌, map, IsSome, IfSome};
ghost use Rattle.std.specs.String.{string_bytes};
ghost use Rattle.command_line.specs.Command.{command_of, copy_order_of, copy_spec_of, dest_order_of, file_of, format_of, is_copy, is_format, is_path, mebibytes_of, of_five, of_four, of_nine, of_one, of_six, of_two, port_of, serve_dest_of, serve_source_of, service_in, service_of, volume_of, workers_of};
ghost use Rattle.wire_schedule.specs.Grammar.{consecutive_of};

use large_copy::LargeCopy;
use linked_copy::CopyOrder;
use nfs_base::{CopySpec, Side};
use std::marker::Model;
use volume_format::NewVolume;
use wire_schedule::{number, number_u32};

/// What the program's words ask for.
#[derive(Clone, Copy, PartialEq, Eq)]
pub enum Command {
    /// Reads a schedule, carries it out and prints the transcript.
    Run,

    /// Reads a stream of records and prints what they hold.
    Show,

    /// Carries out the schedule of a large copy and prints its summary.
    Gen(LargeCopy),

    /// Makes an empty volume on the disk of a file. The file is the first word behind the command's.
    Format(NewVolume),

    /// Serves the volume on the disk of a file as a source. The file is the first word behind the command's.
    ServeSource(Service),

    /// Serves the volume on the disk of a file as a destination. The file is the first word behind the command's.
    ServeDest(DestOrder),

    /// Makes one copy by a client of two servers.
    Copy(CopyOrder),
}

/// Where a server listens, and for how many connections.
#[derive(Clone, Copy, PartialEq, Eq)]
pub struct Service {
    /// A port of this machine, from 1 on.
    pub port: u16,

    /// How many connections it accepts, 1 to 1,000,000.
    pub conns: u32,
}

/// How many workers a destination has: 1 to 8.
#[derive(Clone, Copy, PartialEq, Eq)]
pub struct Workers {
    number: u8,
}

impl Model for Workers {
    ghost use Rattle.std.specs.Prelude.{ℕ, ◌≤◌};

    ghost Value = { ℕ };

    ghost view = { λ w. w.number };

    ghost invariant = { λ w. (1 ≤ w.number) × (w.number ≤ 8) };

    ghost inverse = { λ number. record { number = number } };
}

impl Workers {
    /// So many workers, where they are 1 to 8.
    pub fn new(number: u8) -> Option<Workers>
        ensures some { IsSome result ↔ ((1 ≤ number) × (number ≤ 8)) }
        ensures same { IfSome result (λ workers. workers ≡ number) }
    {
        if number < 1 || number > 8 {
            return None;
        }
        Some(Workers { number })
    }

    /// How many they are.
    pub fn number(self) -> u8
        ensures same { result ≡ self }
        ensures some { 1 ≤ self }
        ensures few { self ≤ 8 }
    {
        self.number
    }
}

/// What a destination's server is asked for.
#[derive(Clone, Copy, PartialEq, Eq)]
pub struct DestOrder {
    /// Where it listens, and for how many connections.
    pub service: Service,

    /// How many workers fetch from the source.
    pub workers: Workers,

    /// The port of this machine at which they find it, from 1 on.
    pub source_port: u16,
}

/// Which server is asked for, and where it listens.
#[derive(Clone, Copy, PartialEq, Eq)]
pub struct Asked {
    /// Which of the two servers.
    pub side: Side,

    /// Where it listens, and for how many connections.
    pub service: Service,
}

/// So many connections a server accepts at most.
const MOST_CONNS: u32 = 1_000_000;

impl Command {
    /// The command of these words, which don't include the program's name.
    pub fn from_words(words: &[String]) -> Option<Command>
        ensures { result ≡ command_of (map string_bytes words.now) }
    {
        match words {
            [word] => of_one(word.as_bytes()),
            [word, number] => of_two(word.as_bytes(), number.as_bytes()),
            [word, path, port, conns] => of_four(
                word.as_bytes(),
                path.as_bytes(),
                port.as_bytes(),
                conns.as_bytes(),
            ),
            [word, path, files, blocks, tag] => of_five(
                word.as_bytes(),
                path.as_bytes(),
                files.as_bytes(),
                blocks.as_bytes(),
                tag.as_bytes(),
            ),
            [word, path, port, conns, workers, source] => of_six(
                word.as_bytes(),
                path.as_bytes(),
                port.as_bytes(),
                conns.as_bytes(),
                workers.as_bytes(),
                source.as_bytes(),
            ),
            [
                word,
                source,
                dest,
                src_file,
                src_off,
                dst_file,
                dst_off,
                count,
                consecutive,
            ] => {
                of_nine(
                    word.as_bytes(),
                    source.as_bytes(),
                    dest.as_bytes(),
                    src_file.as_bytes(),
                    src_off.as_bytes(),
                    dst_file.as_bytes(),
                    dst_off.as_bytes(),
                    count.as_bytes(),
                    consecutive.as_bytes(),
                )
            }
            _ => None,
        }
    }
}

/// A command of one word.
fn of_one(word: &[u8]) -> Option<Command>
    ensures { result ≡ of_one word.now }
{
    if word == b"run".as_slice() {
        return Some(Command::Run);
    }
    if word == b"show".as_slice() {
        return Some(Command::Show);
    }
    None
}

fn of_two(word: &[u8], number: &[u8]) -> Option<Command>
    ensures { result ≡ of_two word.now number.now }
{
    if word != b"gen".as_slice() {
        return None;
    }
    Some(Command::Gen(mebibytes(number)?))
}

fn of_four(word: &[u8], path: &[u8], port: &[u8], conns: &[u8]) -> Option<Command>
    ensures { result ≡ of_four word.now path.now port.now conns.now }
{
    if word == b"serve-source".as_slice() {
        read_serve_source(path, port, conns)
    } else {
        None
    }
}

fn of_five(word: &[u8], path: &[u8], files: &[u8], blocks: &[u8], tag: &[u8]) -> Option<Command>
    ensures { result ≡ of_five word.now path.now files.now blocks.now tag.now }
{
    if word == b"format".as_slice() {
        read_format(path, files, blocks, tag)
    } else {
        None
    }
}

fn of_six(
    word: &[u8],
    path: &[u8],
    port: &[u8],
    conns: &[u8],
    workers: &[u8],
    source: &[u8],
) -> Option<Command>
    ensures { result ≡ of_six word.now path.now port.now conns.now workers.now source.now }
{
    if word == b"serve-dest".as_slice() {
        read_serve_dest(path, port, conns, workers, source)
    } else {
        None
    }
}

fn of_nine(
    word: &[u8],
    source: &[u8],
    dest: &[u8],
    src_file: &[u8],
    src_off: &[u8],
    dst_file: &[u8],
    dst_off: &[u8],
    count: &[u8],
    consecutive: &[u8],
) -> Option<Command>
    ensures { result ≡ of_nine word.now source.now dest.now src_file.now src_off.now dst_file.now dst_off.now count.now consecutive.now }
{
    if word != b"copy".as_slice() {
        return None;
    }
    let copy = read_copy(src_file, src_off, dst_file, dst_off, count, consecutive)?;
    Some(Command::Copy(read_order(source, dest, copy)?))
}

/// Whether these words make a volume on the disk of a file, which is the second of them.
pub fn is_format(words: &[String]) -> bool
    ensures { result ≡ is_format (command_of (map string_bytes words.now)) }
{
    let Some(command) = Command::from_words(words) else {
        return false;
    };
    match command {
        Command::Format(_) => true,
        Command::Run => false,
        Command::Show => false,
        Command::Gen(_) => false,
        Command::ServeSource(_) => false,
        Command::ServeDest(_) => false,
        Command::Copy(_) => false,
    }
}

/// Whether these words make a copy by a client of two servers.
pub fn is_copy(words: &[String]) -> bool
    ensures { result ≡ is_copy (command_of (map string_bytes words.now)) }
{
    let Some(command) = Command::from_words(words) else {
        return false;
    };
    match command {
        Command::Copy(_) => true,
        Command::Run => false,
        Command::Show => false,
        Command::Gen(_) => false,
        Command::Format(_) => false,
        Command::ServeSource(_) => false,
        Command::ServeDest(_) => false,
    }
}

/// Which server these words ask for, whose volume lies on the disk of a file, which is the second of them.
pub fn asked_service(words: &[String]) -> Option<Asked>
    ensures { result ≡ service_in (command_of (map string_bytes words.now)) }
{
    match Command::from_words(words)? {
        Command::ServeSource(service) => Some(Asked {
            side: Side::Source,
            service,
        }),
        Command::ServeDest(order) => Some(Asked {
            side: Side::Dest,
            service: order.service,
        }),
        Command::Run => None,
        Command::Show => None,
        Command::Gen(_) => None,
        Command::Format(_) => None,
        Command::Copy(_) => None,
    }
}

/// A number of 1 to 64.
#[tactic(auto, unfolding(crate::specs::Command::mebibytes_of))]
fn mebibytes(word: &[u8]) -> Option<LargeCopy>
    ensures { result ≡ mebibytes_of word.now }
{
    LargeCopy::new(u8::try_from(number(word)?).ok()?)
}

/// `format`, without its first word.
#[tactic(auto, unfolding(crate::specs::Command::format_of))]
fn read_format(path: &[u8], files: &[u8], blocks: &[u8], tag: &[u8]) -> Option<Command>
    ensures { result ≡ format_of path.now files.now blocks.now tag.now }
{
    if !is_path(path) {
        return None;
    }
    Some(Command::Format(new_volume(files, blocks, tag)?))
}

/// Whether a word can be a path: it doesn't begin with `-`.
fn is_path(word: &[u8]) -> bool
    ensures { result ≡ is_path word.now }
{
    !matches!(word, [b'-', ..])
}

/// A volume of these numbers.
#[tactic(auto, unfolding(crate::specs::Command::volume_of))]
fn new_volume(files: &[u8], blocks: &[u8], tag: &[u8]) -> Option<NewVolume>
    ensures { result ≡ volume_of files.now blocks.now tag.now }
{
    NewVolume::new(number_u32(files)?, number_u32(blocks)?, number(tag)?)
}

/// `serve-source`, without its first word.
#[tactic(auto, unfolding(crate::specs::Command::serve_source_of))]
fn read_serve_source(path: &[u8], port: &[u8], conns: &[u8]) -> Option<Command>
    ensures { result ≡ serve_source_of path.now port.now conns.now }
{
    if !is_path(path) {
        return None;
    }
    Some(Command::ServeSource(read_service(port, conns)?))
}

/// A service by these words.
#[tactic(auto, unfolding(crate::specs::Command::service_of))]
fn read_service(port: &[u8], conns: &[u8]) -> Option<Service>
    ensures { result ≡ service_of port.now conns.now }
{
    let port = number_u32(port)?;
    let conns = number_u32(conns)?;
    if port < 1 || port > 65_535 || conns < 1 || conns > MOST_CONNS {
        return None;
    }
    Some(Service {
        port: port as u16,
        conns,
    })
}

/// `serve-dest`, without its first word.
#[tactic(auto, unfolding(crate::specs::Command::serve_dest_of))]
fn read_serve_dest(
    path: &[u8],
    port: &[u8],
    conns: &[u8],
    workers: &[u8],
    source: &[u8],
) -> Option<Command>
    ensures { result ≡ serve_dest_of path.now port.now conns.now workers.now source.now }
{
    if !is_path(path) {
        return None;
    }
    Some(Command::ServeDest(read_dest(port, conns, workers, source)?))
}

/// What a destination's server is asked for by these words.
#[tactic(auto, unfolding(crate::specs::Command::dest_order_of))]
fn read_dest(port: &[u8], conns: &[u8], workers: &[u8], source: &[u8]) -> Option<DestOrder>
    ensures { result ≡ dest_order_of port.now conns.now workers.now source.now }
{
    Some(DestOrder {
        service: read_service(port, conns)?,
        workers: read_workers(workers)?,
        source_port: read_port(source)?,
    })
}

/// How many workers.
#[tactic(auto, unfolding(crate::specs::Command::workers_of))]
fn read_workers(word: &[u8]) -> Option<Workers>
    ensures { result ≡ workers_of word.now }
{
    let workers = number_u32(word)?;
    if workers < 1 || workers > 8 {
        return None;
    }
    Workers::new(workers as u8)
}

/// A copy by these words, and where its servers are found.
#[tactic(auto, unfolding(crate::specs::Command::copy_order_of))]
fn read_order(source: &[u8], dest: &[u8], copy: CopySpec) -> Option<CopyOrder>
    ensures { result ≡ copy_order_of source.now dest.now copy }
{
    Some(CopyOrder {
        source_port: read_port(source)?,
        dest_port: read_port(dest)?,
        copy,
    })
}

/// What is copied, by these words.
#[tactic(auto, unfolding(crate::specs::Command::copy_spec_of))]
fn read_copy(
    src_file: &[u8],
    src_off: &[u8],
    dst_file: &[u8],
    dst_off: &[u8],
    count: &[u8],
    consecutive: &[u8],
) -> Option<CopySpec>
    ensures { result ≡ copy_spec_of src_file.now src_off.now dst_file.now dst_off.now count.now consecutive.now }
{
    Some(CopySpec {
        src_file: read_file(src_file)?,
        src_off: number(src_off)?,
        dst_file: read_file(dst_file)?,
        dst_off: number(dst_off)?,
        count: number(count)?,
        consecutive: read_consecutive(consecutive)?,
    })
}

/// A port of this machine.
#[tactic(auto, unfolding(crate::specs::Command::port_of))]
fn read_port(word: &[u8]) -> Option<u16>
    ensures { result ≡ port_of word.now }
{
    let port = number_u32(word)?;
    if port < 1 || port > 65_535 {
        return None;
    }
    Some(port as u16)
}

/// A file's number.
#[tactic(auto, unfolding(crate::specs::Command::file_of))]
fn read_file(word: &[u8]) -> Option<u32>
    ensures { result ≡ file_of word.now }
{
    let file = number_u32(word)?;
    if file < 1 {
        return None;
    }
    Some(file)
}

/// `c` where the copy has to be consecutive, else `n`.
#[tactic(auto, unfolding(wire_schedule::specs::Grammar::consecutive_of))]
fn read_consecutive(word: &[u8]) -> Option<bool>
    ensures { result ≡ consecutive_of word.now }
{
    if word == b"c".as_slice() {
        return Some(true);
    }
    if word == b"n".as_slice() {
        return Some(false);
    }
    None
}
