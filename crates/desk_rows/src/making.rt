//! The two servers and the client, made anew.

ghost use Rattle.block_file.specs.Opened.{CanBeOpened};
ghost use Rattle.disk_model.specs.Disk.{Image, MayLeave};
ghost use Rattle.disk_model.specs.Elapsed.{present};
ghost use Rattle.nfs_base.specs.Forms.{net_loc};
ghost use Rattle.source_core.specs.Location.{IsShort};
ghost use Rattle.std.specs.Prelude.{◌≤◌, length, IfOk};

use block_file::Volume;
use client_core::Client;
use copy_privs::Peer;
use dest_core::DestCore;
use disk_model::{Disk, MemoryDisk};
use gss_mech::Realm;
use nfs_base::{BLOCK_SIZE, MOST_BLOCKS, NetLoc};
use outcome::Mem;
use source_core::SourceCore;
use std::alloc::Global;
use two_ends::{Wrong, realm};
use wire_xdr::{Items, Octets};

/// How many bytes a READ is of.
pub(crate) const CHUNK: usize = 65_536;

const SOURCE_TAG: u64 = 1;

const DEST_TAG: u64 = 2;

const SOURCE_ADDR: &[u8] = b"127.0.0.1.8.1";

const DEST_ADDR: &[u8] = b"127.0.0.1.8.2";

/// A source with one file of so many bytes.
pub(crate) fn new_source(alloc: Global, size: u32) -> Result<SourceCore<MemoryDisk, Realm>, Wrong> {
    let disk = formatted(new_disk(alloc), 1, blocks_of(size), SOURCE_TAG)?;
    open_source(alloc, filled(alloc, disk, size)?)
}

/// A destination with so many empty files, each of which has room for so many bytes.
pub(crate) fn new_dest(
    alloc: Global,
    files: u32,
    size: u32,
) -> Result<DestCore<MemoryDisk, Realm>, Wrong> {
    let disk = formatted(new_disk(alloc), files, blocks_of(size), DEST_TAG)?;
    open_dest(alloc, disk)
}

/// A client of both.
pub(crate) fn new_client(alloc: Global) -> Mem<Client<Realm>> {
    let source = place(alloc, SOURCE_ADDR)?;
    let dest = place(alloc, DEST_ADDR)?;
    new_client_of(alloc, source, dest)
}

/// A client of servers at these places.
fn new_client_of(alloc: Global, source: NetLoc, dest: NetLoc) -> Mem<Client<Realm>>
    requires source { net_loc.Fits source }
    requires dest { net_loc.Fits dest }
{
    let me = Octets::from_slice(alloc, b"user")?;
    Client::new(alloc, realm(alloc)?, me, source, dest)
}

/// A disk with room for the largest volume.
fn new_disk(alloc: Global) -> MemoryDisk {
    MemoryDisk::new(alloc, 40_000, Vec::new(alloc))
}

/// How many blocks have room for so many bytes.
fn blocks_of(size: u32) -> u32 {
    size.div_ceil(BLOCK_SIZE as u32).max(1)
}

/// Makes a volume on a disk.
fn formatted<D: Disk + Drop>(disk: D, files: u32, blocks: u32, tag: u64) -> Result<D, Wrong>
    ensures { IfOk result (λ disk. D.Told → (image : Image) → MayLeave (present (D.timeline disk)) image → CanBeOpened (D.size disk) image) }
{
    if files < 1 || files > 2 || blocks < 1 || blocks > MOST_BLOCKS / files {
        return Err(Wrong::Lacks("such a volume"));
    }
    match Volume::format(disk, files, blocks, tag)? {
        Ok(disk) => Ok(disk),
        Err(_) => Err(Wrong::Lacks("a volume")),
    }
}

/// Writes so many bytes into file 1 of the volume on a disk.
fn filled<D: Disk + Drop>(alloc: Global, disk: D, size: u32) -> Result<D, Wrong>
    requires { D.Told → (image : Image) → MayLeave (present (D.timeline disk)) image → CanBeOpened (D.size disk) image }
    ensures { IfOk result (λ disk. D.Told → (image : Image) → MayLeave (present (D.timeline disk)) image → CanBeOpened (D.size disk) image) }
{
    let Ok(mut volume) = Volume::open(alloc, disk)? else {
        return Err(Wrong::Lacks("a volume"));
    };
    fill(alloc, &mut volume, size)?;
    Ok(volume.hand_back())
}

fn fill<D: Disk + Drop>(alloc: Global, volume: &mut Volume<D>, size: u32) -> Result<(), Wrong> {
    let mut bytes = vec![in alloc; 0; CHUNK]?;
    write_all(volume, &mut bytes, size)
}

/// Writes so many bytes into file 1 of a volume and commits it. The bytes of a chunk are lent for that.
fn write_all<D: Disk + Drop>(
    volume: &mut Volume<D>,
    bytes: &mut [u8],
    size: u32,
) -> Result<(), Wrong> {
    let mut word = 1;
    for chunk in 0..1024_u64 {
        let off = chunk * CHUNK as u64;
        let left = u64::from(size).saturating_sub(off);
        if left == 0 {
            break;
        }
        word = scramble(bytes, word);
        write(volume, off, first(bytes, left))?;
    }
    commit(volume)
}

fn commit<D: Disk + Drop>(volume: &mut Volume<D>) -> Result<(), Wrong> {
    let _files = volume.files();
    match volume.commit(1) {
        Ok(()) => Ok(()),
        Err(_) => Err(Wrong::Lacks("a commit")),
    }
}

/// So many bytes, or all where there are no more.
fn first(bytes: &[u8], count: u64) -> &[u8] {
    if count < bytes.len() as u64 {
        &bytes[..count as usize]
    } else {
        bytes
    }
}

/// Writes bytes into file 1 of a volume.
fn write<D: Disk + Drop>(volume: &mut Volume<D>, off: u64, bytes: &[u8]) -> Result<(), Wrong> {
    let _files = volume.files();
    match volume.write(1, off, bytes) {
        Ok(()) => Ok(()),
        Err(_) => Err(Wrong::Lacks("a write")),
    }
}

/// Fills bytes with those that follow from a word, and gives the next word.
fn scramble(bytes: &mut [u8], word: u32) -> u32 {
    let mut word = word;
    for byte in bytes.iter_mut() {
        word = word.wrapping_mul(1_664_525).wrapping_add(1_013_904_223);
        *byte = word.to_be_bytes()[0];
    }
    word
}

/// The source on a disk.
fn open_source<D: Disk + Drop>(alloc: Global, disk: D) -> Result<SourceCore<D, Realm>, Wrong>
    requires { D.Told → (image : Image) → MayLeave (present (D.timeline disk)) image → CanBeOpened (D.size disk) image }
{
    let peers = source_peers(alloc)?;
    let own = place(alloc, SOURCE_ADDR)?;
    open_source_at(alloc, disk, peers, own)
}

/// The servers that the source knows.
fn source_peers(alloc: Global) -> Mem<Items<Peer>> {
    let mut peers = Items::new(alloc);
    peers.push(peer(alloc, b"dest", DEST_ADDR)?)?;
    Ok(peers)
}

/// The source on a disk, which knows these servers and is found here.
fn open_source_at<D: Disk + Drop>(
    alloc: Global,
    disk: D,
    peers: Items<Peer>,
    own: NetLoc,
) -> Result<SourceCore<D, Realm>, Wrong>
    requires disk { D.Told → (image : Image) → MayLeave (present (D.timeline disk)) image → CanBeOpened (D.size disk) image }
    requires short { IsShort own }
{
    match SourceCore::open(alloc, disk, realm(alloc)?, peers, own)? {
        Ok(core) => Ok(core),
        Err(_) => Err(Wrong::Lacks("a source")),
    }
}

/// The destination on a disk.
fn open_dest<D: Disk + Drop>(alloc: Global, disk: D) -> Result<DestCore<D, Realm>, Wrong>
    requires { D.Told → (image : Image) → MayLeave (present (D.timeline disk)) image → CanBeOpened (D.size disk) image }
{
    let source = peer(alloc, b"source", SOURCE_ADDR)?;
    let own = place(alloc, DEST_ADDR)?;
    open_dest_at(alloc, disk, source, own)
}

/// The destination on a disk, which copies from this source and is found here.
fn open_dest_at<D: Disk + Drop>(
    alloc: Global,
    disk: D,
    source: Peer,
    own: NetLoc,
) -> Result<DestCore<D, Realm>, Wrong>
    requires { D.Told → (image : Image) → MayLeave (present (D.timeline disk)) image → CanBeOpened (D.size disk) image }
{
    let name = Octets::from_slice(alloc, b"dest")?;
    match DestCore::open(alloc, disk, realm(alloc)?, source, name, own)? {
        Ok(core) => Ok(core),
        Err(_) => Err(Wrong::Lacks("a destination")),
    }
}

/// A server by its name and address.
fn peer(alloc: Global, name: &[u8], addr: &[u8]) -> Mem<Peer>
    requires { length addr.now ≤ 64 }
{
    Ok(Peer {
        principal: Octets::from_slice(alloc, name)?,
        loc: place(alloc, addr)?,
    })
}

/// Where a server is found.
#[tactic(auto, unfolding(nfs_base::specs::Forms::net_loc))]
fn place(alloc: Global, addr: &[u8]) -> Mem<NetLoc>
    requires { length addr.now ≤ 64 }
    ensures fits { IfOk result (λ loc. net_loc.Fits loc) }
    ensures short { IfOk result IsShort }
{
    Ok(NetLoc::Addr {
        netid: Octets::from_slice(alloc, b"tcp")?,
        addr: Octets::from_slice(alloc, addr)?,
    })
}
