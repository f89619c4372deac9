ghost use Rattle.std.specs.Prelude.{◌≡◌, ◌+◌, ◌-◌, ◌<◌, ◌≤◌, None, IfSome, OnSome};
ghost use Rattle.outcome.specs.Causes.{Rose};
ghost use Rattle.disk_model.specs.declared.fuse.Fuse.TheVariants.{Unset};
ghost use Rattle.disk_model.specs.Disk.{IsSettled};
ghost use Rattle.disk_model.specs.Elapsed.{present, contents};
ghost use Rattle.disk_model.specs.Passes.{Passes};
ghost use Rattle.block_file.specs.Cell.{gate_of, cell_of, IsCell, OldOrNew, Keeps, Lands, Spares};

use disk_model::{Block, Disk, Io};

/// One block kept in two places of a disk, of which a gate names the one in force. It takes three
/// blocks of the disk: the gate, and then the two places.
#[derive(Clone, Copy, PartialEq, Eq)]
pub struct GatedCell {
    /// The gate's block.
    pub at: u64,

    /// The place in force, 0 or 1.
    pub home: u8,

    ghost two_homes: { home ≤ 1 },
}

impl GatedCell {
    /// Reads the cell's block. None where a read fails.
    pub fn read<D: Disk>(disk: &mut D, at: u64, out: &mut Block) -> Option<GatedCell>
        requires room { at + 2 < D.size disk.old }
        ensures place { IfSome result (λ cell. cell.at ≡ at) }
        ensures home { D.Told → IfSome result (λ cell. cell.home ≡ gate_of (contents (D.timeline disk.old) at)) }
        ensures block { D.Told → OnSome result (out.new ≡ cell_of (contents (D.timeline disk.old)) at) }
        ensures same { D.Told → D.timeline disk.new ≡ D.timeline disk.old }
        ensures size { D.size disk.new ≡ D.size disk.old }
        ensures unset { D.fuse disk.old ≡ Unset → D.fuse disk.new ≡ Unset }
        ensures fuse { D.fuse disk.new ≡ D.fuse disk.old }
        ensures faults { D.faults disk.old ≤ D.faults disk.new }
        ensures cause { result ≡ None → Rose (D.faults disk.old) (D.faults disk.new) }
    {
        let _count = disk.blocks();
        let mut gate = [0; 4096];
        match disk.read(at, &mut gate) {
            Io::Failed => return None,
            Io::Done => {}
        }
        let home = gate[0] % 2;
        match disk.read(at + 1 + u64::from(home), out) {
            Io::Failed => None,
            Io::Done => Some(GatedCell { at, home }),
        }
    }

    /// Puts a block in the place of the one that the cell holds. A crash at any moment leaves the old
    /// block or the new one. After a failed put the cell is as before, and which of them a crash leaves
    /// isn't known. What was written elsewhere before the call is safe once a crash leaves the new one.
    pub fn put<D: Disk>(&mut self, disk: &mut D, block: &Block) -> Io
        requires room { self.old.at + 2 < D.size disk.old }
        ensures place { self.new.at ≡ self.old.at }
        ensures turned { result ≡ Io.Done → self.new.home ≡ 1 - self.old.home }
        ensures kept { result ≡ Io.Failed → self.new.home ≡ self.old.home }
        ensures done { D.Told → result ≡ Io.Done
            → (contents (D.timeline disk.new) (self.old.at + 1 + self.new.home) ≡ block.now)
            × IsCell (present (D.timeline disk.new)) self.old.at self.new.home
            × IsSettled (present (D.timeline disk.new)) }
        ensures rest { D.Told → Keeps self.old.at (present (D.timeline disk.old)) (present (D.timeline disk.new)) }
        ensures any_moment { D.Told → IsCell (present (D.timeline disk.old)) self.old.at self.old.home
            → Passes (D.fuse disk.old) (D.fuse disk.new) (D.timeline disk.old) (D.timeline disk.new)
            (OldOrNew self.old.at (present (D.timeline disk.old)) (cell_of (contents (D.timeline disk.old)) self.old.at) block.now) }
        ensures size { D.size disk.new ≡ D.size disk.old }
        ensures unset { D.fuse disk.old ≡ Unset → D.fuse disk.new ≡ Unset }
        ensures faults { D.faults disk.old ≤ D.faults disk.new }
        ensures cause { result ≡ Io.Failed → Rose (D.faults disk.old) (D.faults disk.new) }
    {
        let _count = disk.blocks();
        let home = 1 - self.home;
        match land(disk, self.at + 1 + u64::from(home), block) {
            Io::Failed => return Io::Failed,
            Io::Done => {}
        }
        let mut gate = [0; 4096];
        gate[0] = home;
        match land(disk, self.at, &gate) {
            Io::Failed => return Io::Failed,
            Io::Done => {}
        }
        self.home = home;
        Io::Done
    }
}

// Writes a block, and makes safe all that was written.
fn land<D: Disk>(disk: &mut D, at: u64, block: &Block) -> Io
    requires { at < D.size disk.old }
    ensures lands { D.Told → Lands at block.now result (present (D.timeline disk.old)) (present (D.timeline disk.new)) }
    ensures any_moment { D.Told → Passes (D.fuse disk.old) (D.fuse disk.new) (D.timeline disk.old) (D.timeline disk.new)
        (Spares at (present (D.timeline disk.old))) }
    ensures size { D.size disk.new ≡ D.size disk.old }
    ensures unset { D.fuse disk.old ≡ Unset → D.fuse disk.new ≡ Unset }
    ensures faults { D.faults disk.old ≤ D.faults disk.new }
    ensures cause { result ≡ Io.Failed → Rose (D.faults disk.old) (D.faults disk.new) }
{
    match disk.write(at, block) {
        Io::Failed => Io::Failed,
        Io::Done => disk.sync(),
    }
}
