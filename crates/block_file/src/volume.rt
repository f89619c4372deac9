ghost use Rattle.std.specs.Prelude.{◌≡◌, ◌↔◌, ℕ, ◌+◌, ◌*◌, ◌<◌, ◌≤◌, ◌^◌, true, false, [], length, slice_index, slice_index_or, IsOk, IsErr, IsTrue, IfOk, MatchResult, Some, None, ◌==◌, if◌then◌else◌};
ghost use Rattle.outcome.specs.Causes.{Rose};
ghost use Rattle.copy_model.specs.Volume.{file_at, bytes_at, write, commit, fail_write, fail_commit, change_of};
ghost use Rattle.disk_model.specs.declared.fuse.Fuse.TheVariants.{Unset};
ghost use Rattle.disk_model.specs.Disk.{Image, MayLeave};
ghost use Rattle.disk_model.specs.Elapsed.{present, contents, set_to, IsOut};
ghost use Rattle.disk_model.specs.Passes.{Passes};
ghost use Rattle.block_file.specs.declared.faults.WriteFault.{WriteFault};
ghost use Rattle.block_file.specs.Layout.{boot_in, table_of};
ghost use Rattle.block_file.specs.Stored.{reopened, tag_of, home_of, flaw_of};
ghost use Rattle.block_file.specs.Opened.{homes_by, turned, MayBeLeft, StandsFor, SameOpening, CanBeOpened, LeftByOpening, RefusedFor, IsFresh, refusal_of};

use crate::FileInfo;
use crate::blocks::put_table;
use crate::faults::{OpenFault, ReadFault, WriteFault};
use crate::files::{read_file, write_file};
use crate::load::Cells;
use crate::opening::{Loaded, start};
use crate::shape::Shape;
use crate::tables::{change_in, size_in, table_at};
use disk_model::{Block, CrashDisk, Disk, Io};
use nfs_base::{BLOCK_SIZE, MOST_FILES};
use outcome::Mem;
use std::alloc::Global;
use std::marker::Model;

/// A volume on a disk, open. A crash at any moment leaves of each file what its last commit made safe,
/// or what a commit that was under way was making safe. No bytes of a file are held in memory.
#[derive(Drop)]
pub struct Volume<D: Disk> {
    disk: D,
    shape: Shape,
    tag: u64,
    boot: u32,
    writes: u32,
    broken: bool,
    doubt: u32,
    // The moment of the disk as of which the files read: the present one, or where a call has failed the
    // one before it.
    moment: u64,
    homes: Vec<u8>,
    // The tables that are safe, and those that the next commits are to put.
    tables: Vec<Block>,
    newest: Vec<Block>,
}

impl<D: Disk> Model for Volume<D> {
    ghost use Rattle.std.specs.Prelude.{◌≡◌, ◌+◌, [], length, slice_index, slice_index_or};
    ghost use Rattle.block_file.specs.Opened.{Opened, volume_at, IsKept};

    ghost Value = { Opened D };

    ghost view = { λ v. record {
      volume = volume_at v.shape v.boot v.writes v.broken v.doubt (λ j. slice_index_or v.newest.items j [])
          (λ j. slice_index_or v.tables.items j []) ((D.timeline v.disk).state v.moment).reads;
      tag = v.tag;
      homes = v.homes.items;
      disk = v.disk;
    } };

    ghost invariant = { λ v. (length v.homes.items ≡ v.shape.files + 1) × (length v.tables.items ≡ v.shape.files + 1)
        × (length v.newest.items ≡ v.shape.files + 1)
        × IsKept D.Told (D.size v.disk) (D.timeline v.disk) v.moment v.shape v.tag v.boot v.writes v.broken v.doubt
        (λ j. slice_index v.homes.items j) (λ j. slice_index_or v.newest.items j []) (λ j. slice_index_or v.tables.items j []) };
}

impl<D: Disk + Drop> Volume<D> {
    /// Opens the volume on a disk: each file has its safe bytes, and the boot number is raised by one. A
    /// crash at any moment leaves the volume with its old boot number or the next one. A disk that holds
    /// no volume is refused, once it is synced, at the first field that is off: in block 0, in the boot
    /// cell, or in the files' cells by number. All memory is taken here; where that is refused, the disk is
    /// let go.
    pub fn open(alloc: Global, disk: D) -> Mem<Result<Volume<D>, (D, OpenFault)>>
        requires { D.Told → (image : Image) → MayLeave (present (D.timeline disk)) image → CanBeOpened (D.size disk) image }
        ensures refused { D.Told → IfOk result (λ answer. MatchResult answer
            (λ _. flaw_of (D.size disk) (contents (D.timeline disk)) ≡ None)
            (λ fault. RefusedFor (flaw_of (D.size disk) (contents (D.timeline disk))) fault.1)) }
        ensures volume { D.Told → IfOk result (λ answer. IfOk answer (λ opened. opened.volume ≡ reopened (contents (D.timeline disk)))) }
        ensures boot { D.Told → IfOk result (λ answer. IfOk answer (λ opened.
            opened.volume.boot ≡ boot_in (table_of (contents (D.timeline disk)) 0) + 1)) }
        ensures tag { D.Told → IfOk result (λ answer. IfOk answer (λ opened. opened.tag ≡ tag_of (contents (D.timeline disk)))) }
        ensures homes { D.Told → IfOk result (λ answer. IfOk answer (λ opened. (j : ℕ) → 1 ≤ j → j < length opened.volume.files
            → homes_by opened.homes j ≡ home_of (contents (D.timeline disk)) j)) }
        ensures stands { D.Told → IfOk result (λ answer. IfOk answer (λ opened. StandsFor D.timeline D.size opened)) }
        ensures any_moment { D.Told → IfOk result (λ answer. MatchResult answer
            (λ opened. Passes (D.fuse disk) (D.fuse opened.disk) (D.timeline disk) (D.timeline opened.disk)
            (LeftByOpening (D.size disk) (present (D.timeline disk))))
            (λ fault. Passes (D.fuse disk) (D.fuse fault.0) (D.timeline disk) (D.timeline fault.0)
            (LeftByOpening (D.size disk) (present (D.timeline disk))))) }
        ensures untouched { D.Told → IfOk result (λ answer. MatchResult answer (λ _. Unit {0})
            (λ fault. (fault.1 ≡ OpenFault.DiskFailed → ⊥) → contents (D.timeline fault.0) ≡ contents (D.timeline disk))) }
        ensures again { D.Told → IfOk result (λ answer. MatchResult answer (λ _. Unit {0})
            (λ fault. (image : Image) → MayLeave (present (D.timeline fault.0)) image → CanBeOpened (D.size fault.0) image)) }
        ensures fresh { IfOk result (λ answer. IfOk answer (λ opened. IsFresh opened.volume)) }
        ensures unset { D.fuse disk ≡ Unset → IfOk result (λ answer. MatchResult answer (λ opened. D.fuse opened.disk ≡ Unset) (λ fault. D.fuse fault.0 ≡ Unset)) }
        ensures size { IfOk result (λ answer. MatchResult answer (λ opened. D.size opened.disk ≡ D.size disk) (λ fault. D.size fault.0 ≡ D.size disk)) }
        ensures faults { IfOk result (λ answer. MatchResult answer (λ opened. D.faults disk ≤ D.faults opened.disk) (λ fault. D.faults disk ≤ D.faults fault.0)) }
        ensures cause { IfOk result (λ answer. MatchResult answer (λ _. Unit {0})
            (λ fault. fault.1 ≡ OpenFault.DiskFailed → Rose (D.faults disk) (D.faults fault.0))) }
    {
        let mut disk = disk;
        match start(alloc, &mut disk)? {
            Err(fault) => Ok(Err((disk, fault))),
            Ok(started) => {
                let Loaded {
                    shape,
                    tag,
                    boot,
                    cells: Cells {
                        homes,
                        tables,
                        newest,
                    },
                } = started;
                let moment = disk.moment();
                Ok(Ok(Volume {
                    disk,
                    shape,
                    tag,
                    boot,
                    writes: 0,
                    broken: false,
                    doubt: 0,
                    moment,
                    homes,
                    tables,
                    newest,
                }))
            }
        }
    }
}

impl<D: Disk> Volume<D> {
    /// The number of this opening.
    pub fn boot(&self) -> u32
        ensures { result ≡ self.now.volume.boot }
    {
        self.boot
    }

    /// The tag that the volume was formatted with.
    pub fn tag(&self) -> u64
        ensures { result ≡ self.now.tag }
    {
        self.tag
    }

    /// Whether a write or commit of this opening failed. At any time a crash leaves of each file its safe
    /// contents; only of the file of a failed commit it may leave those that this was making safe.
    pub fn is_broken(&self) -> bool
        ensures broken { result ≡ self.now.volume.broken }
        ensures stands { D.Told → StandsFor D.timeline D.size self.now }
        ensures certain { self.now.volume.broken ≡ false → self.now.volume.doubt ≡ None }
    {
        self.broken
    }

    /// How many files there are, but for the root directory.
    pub fn files(&self) -> u32
        ensures count { result + 1 ≡ length self.now.volume.files }
        ensures bounds { (1 ≤ result) × (result ≤ MOST_FILES) }
    {
        self.shape.files
    }

    /// How many bytes a file may hold.
    pub fn capacity(&self) -> u64
        ensures { result ≡ self.now.volume.capacity }
    {
        u64::from(self.shape.blocks) * BLOCK_SIZE
    }

    /// The home in force of a file's table, 0 or 1. After a failed commit it is the one before it.
    pub fn home(&self, file: u32) -> u8
        requires no_root { 1 ≤ file }
        requires there { file < length self.now.volume.files }
        ensures home { result ≡ homes_by self.now.homes file }
        ensures two { result ≤ 1 }
    {
        self.homes[file as usize]
    }

    /// A file's size and change attribute.
    pub fn file(&self, file: u32) -> FileInfo
        requires no_root { 1 ≤ file }
        requires there { file < length self.now.volume.files }
        ensures info { result ≡ record { size = length (file_at self.now.volume file).now; change = (file_at self.now.volume file).change } }
        ensures within { result.size ≤ self.now.volume.capacity }
    {
        let newest = table_at(&self.newest, file as usize);
        FileInfo {
            size: size_in(&newest),
            change: change_in(&newest),
        }
    }

    /// Fills `out` with the file's bytes from `off` on, and with zeros past its end. It reads the disk; a
    /// failure of that breaks nothing, and `out` then holds any bytes.
    pub fn read(&mut self, file: u32, off: u64, out: &mut [u8]) -> Result<(), ReadFault>
        requires no_root { 1 ≤ file }
        requires there { file < length self.old.volume.files }
        ensures broken { (result ≡ Err ReadFault.Broken) ↔ (self.old.volume.broken ≡ true) }
        ensures bytes { D.Told → IsOk result → out.new ≡ bytes_at (file_at self.old.volume file).now off (length out.old) }
        ensures refused { result ≡ Err ReadFault.Broken → out.new ≡ out.old }
        ensures volume { D.Told → self.new.volume ≡ self.old.volume }
        ensures opening { SameOpening self.old.volume self.new.volume }
        ensures unbroken { self.new.volume.broken ≡ self.old.volume.broken }
        ensures writes { self.new.volume.writes ≡ self.old.volume.writes }
        ensures tag { self.new.tag ≡ self.old.tag }
        ensures homes { self.new.homes ≡ self.old.homes }
        ensures timeline { D.Told → D.timeline self.new.disk ≡ D.timeline self.old.disk }
        ensures fuse { D.fuse self.new.disk ≡ D.fuse self.old.disk }
        ensures size { D.size self.new.disk ≡ D.size self.old.disk }
        ensures faults { D.faults self.old.disk ≤ D.faults self.new.disk }
        ensures cause { result ≡ Err ReadFault.DiskFailed → Rose (D.faults self.old.disk) (D.faults self.new.disk) }
    {
        if self.is_broken() {
            return Err(ReadFault::Broken);
        }
        let newest = table_at(&self.newest, file as usize);
        match read_file(&mut self.disk, self.shape, &newest, file, off, out) {
            Io::Failed => return Err(ReadFault::DiskFailed),
            Io::Done => {}
        }
        Ok(())
    }

    /// Writes `bytes` at `off` (RFC 8881 section 18.32); a gap before it reads as zeros. Tested in this
    /// order: the volume isn't broken, the bytes end within the capacity, there is a further write
    /// number. A write of no bytes changes nothing. The bytes go to the disk at once, and what a crash leaves
    /// doesn't change.
    pub fn write(&mut self, file: u32, off: u64, bytes: &[u8]) -> Result<(), WriteFault>
        requires no_root { 1 ≤ file }
        requires there { file < length self.old.volume.files }
        ensures tested { (fault : WriteFault)
            → refusal_of self.old.volume.broken self.old.volume.writes self.old.volume.capacity off (length bytes.now) ≡ Some fault → result ≡ Err fault }
        ensures passed { refusal_of self.old.volume.broken self.old.volume.writes self.old.volume.capacity off (length bytes.now) ≡ None
            → IsErr result → result ≡ Err WriteFault.DiskFailed }
        ensures refused { IsErr result → (result ≡ Err WriteFault.DiskFailed → ⊥) → self.new ≡ self.old }
        ensures written { D.Told → IsOk result → self.new.volume ≡ write self.old.volume file off bytes.now }
        ensures failed { D.Told → result ≡ Err WriteFault.DiskFailed → self.new.volume ≡ fail_write self.old.volume }
        ensures any_moment { D.Told → self.old.volume.broken ≡ false
            → Passes (D.fuse self.old.disk) (D.fuse self.new.disk) (D.timeline self.old.disk) (D.timeline self.new.disk)
            (MayBeLeft (D.size self.old.disk) self.old.tag (homes_by self.old.homes) self.old.volume) }
        ensures stands { D.Told → StandsFor D.timeline D.size self.new }
        ensures opening { SameOpening self.old.volume self.new.volume }
        ensures unbroken { (result ≡ Err WriteFault.DiskFailed → ⊥) → self.new.volume.broken ≡ self.old.volume.broken }
        ensures breaks { result ≡ Err WriteFault.DiskFailed → self.new.volume.broken ≡ true }
        ensures counted { IsOk result → self.new.volume.writes ≡ (if length bytes.now == 0 then self.old.volume.writes else self.old.volume.writes + 1) }
        ensures uncounted { IsErr result → self.new.volume.writes ≡ self.old.volume.writes }
        ensures tag { self.new.tag ≡ self.old.tag }
        ensures homes { self.new.homes ≡ self.old.homes }
        ensures unset { D.fuse self.old.disk ≡ Unset → D.fuse self.new.disk ≡ Unset }
        ensures size { D.size self.new.disk ≡ D.size self.old.disk }
        ensures faults { D.faults self.old.disk ≤ D.faults self.new.disk }
        ensures cause { result ≡ Err WriteFault.DiskFailed → Rose (D.faults self.old.disk) (D.faults self.new.disk) }
    {
        let capacity = u64::from(self.shape.blocks) * BLOCK_SIZE;
        match refusal(self.broken, self.writes, capacity, off, bytes.len() as u64) {
            Some(fault) => return Err(fault),
            None => {}
        }
        if bytes.is_empty() {
            return Ok(());
        }
        let number = self.writes + 1;
        let change = change_after(self.boot, number);
        let table = table_at(&self.tables, file as usize);
        let mut newest = table_at(&self.newest, file as usize);
        match write_file(
            &mut self.disk,
            self.shape,
            &table,
            &mut newest,
            file,
            off,
            bytes,
            change,
        ) {
            Io::Failed => {
                self.broken = true;
                Err(WriteFault::DiskFailed)
            }
            Io::Done => {
                self.newest[file as usize] = newest;
                self.writes = number;
                self.moment = self.disk.moment();
                Ok(())
            }
        }
    }

    /// Makes all of a file safe (RFC 8881 section 18.3): four calls of the disk, whatever its size. A crash at any moment leaves the file's safe contents or those that the commit makes safe.
    /// After a disk failure the volume is broken, and the contents are in doubt.
    pub fn commit(&mut self, file: u32) -> Result<(), ReadFault>
        requires no_root { 1 ≤ file }
        requires there { file < length self.old.volume.files }
        ensures broken { (result ≡ Err ReadFault.Broken) ↔ (self.old.volume.broken ≡ true) }
        ensures refused { result ≡ Err ReadFault.Broken → self.new ≡ self.old }
        ensures committed { D.Told → IsOk result → self.new.volume ≡ commit self.old.volume file }
        ensures failed { D.Told → result ≡ Err ReadFault.DiskFailed → self.new.volume ≡ fail_commit self.old.volume file }
        ensures homes { IsOk result → self.new.homes ≡ turned self.old.homes file }
        ensures homes_kept { IsErr result → self.new.homes ≡ self.old.homes }
        ensures any_moment { D.Told → self.old.volume.broken ≡ false
            → Passes (D.fuse self.old.disk) (D.fuse self.new.disk) (D.timeline self.old.disk) (D.timeline self.new.disk)
            (MayBeLeft (D.size self.old.disk) self.old.tag (homes_by self.old.homes) (fail_commit self.old.volume file)) }
        ensures stands { D.Told → StandsFor D.timeline D.size self.new }
        ensures opening { SameOpening self.old.volume self.new.volume }
        ensures unbroken { (result ≡ Err ReadFault.DiskFailed → ⊥) → self.new.volume.broken ≡ self.old.volume.broken }
        ensures breaks { result ≡ Err ReadFault.DiskFailed → self.new.volume.broken ≡ true }
        ensures writes { self.new.volume.writes ≡ self.old.volume.writes }
        ensures tag { self.new.tag ≡ self.old.tag }
        ensures unset { D.fuse self.old.disk ≡ Unset → D.fuse self.new.disk ≡ Unset }
        ensures size { D.size self.new.disk ≡ D.size self.old.disk }
        ensures faults { D.faults self.old.disk ≤ D.faults self.new.disk }
        ensures cause { result ≡ Err ReadFault.DiskFailed → Rose (D.faults self.old.disk) (D.faults self.new.disk) }
    {
        if self.broken {
            return Err(ReadFault::Broken);
        }
        let number = file as usize;
        let next = table_at(&self.newest, number);
        let mut home = self.homes[number];
        let _count = self.disk.blocks();
        match put_table(&mut self.disk, self.shape, file, &mut home, &next) {
            Io::Failed => {
                self.broken = true;
                self.doubt = file;
                Err(ReadFault::DiskFailed)
            }
            Io::Done => {
                self.homes[number] = home;
                self.tables[number] = next;
                self.moment = self.disk.moment();
                Ok(())
            }
        }
    }
}

impl<D: Disk> Volume<D> {
    /// Gives the disk back. It may be opened again, and so it may after a crash.
    pub fn hand_back(self) -> D
        ensures disk { result ≡ self.disk }
        ensures stands { D.Told → StandsFor D.timeline D.size self }
        ensures again { D.Told → (image : Image) → MayLeave (present (D.timeline result)) image → CanBeOpened (D.size result) image }
    {
        let Volume {
            disk,
            shape: _,
            tag: _,
            boot: _,
            writes: _,
            broken: _,
            doubt: _,
            moment: _,
            homes: _,
            tables: _,
            newest: _,
        } = self;
        disk
    }
}

impl<D: CrashDisk> Volume<D> {
    /// Lets this many more writes and syncs of the disk pass; the one after them stops the machine.
    pub fn fuse(&mut self, calls: u64)
        ensures fuse { D.fuse self.new.disk ≡ set_to (D.fuse self.old.disk) calls }
        ensures volume { D.Told → self.new.volume ≡ self.old.volume }
        ensures opening { SameOpening self.old.volume self.new.volume }
        ensures unbroken { self.new.volume.broken ≡ self.old.volume.broken }
        ensures writes { self.new.volume.writes ≡ self.old.volume.writes }
        ensures tag { self.new.tag ≡ self.old.tag }
        ensures homes { self.new.homes ≡ self.old.homes }
        ensures timeline { D.Told → D.timeline self.new.disk ≡ D.timeline self.old.disk }
        ensures stands { D.Told → StandsFor D.timeline D.size self.new }
        ensures size { D.size self.new.disk ≡ D.size self.old.disk }
        ensures faults { D.faults self.new.disk ≡ D.faults self.old.disk }
    {
        self.disk.fuse(calls);
    }

    /// Whether the machine has stopped.
    pub fn stopped(&self) -> bool
        ensures { IsTrue result ↔ IsOut (D.fuse self.now.disk) }
    {
        self.disk.stopped()
    }
}

// Why a write of so many bytes at `off` is refused.
fn refusal(broken: bool, writes: u32, capacity: u64, off: u64, len: u64) -> Option<WriteFault>
    ensures { result ≡ refusal_of broken writes capacity off len }
{
    if broken {
        return Some(WriteFault::Broken);
    }
    if len > capacity || off > capacity - len {
        return Some(WriteFault::TooFar);
    }
    if writes == u32::MAX {
        return Some(WriteFault::Worn);
    }
    None
}

// The change attribute of the n-th write of an opening.
fn change_after(boot: u32, n: u32) -> u64
    ensures { result ≡ change_of boot n }
{
    (u64::from(boot) << 32) + u64::from(n)
}
