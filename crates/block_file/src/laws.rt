ghost use Rattle.std.specs.Prelude.{ℕ};
ghost use Rattle.copy_model.specs.Volume.{Volume};
ghost use Rattle.disk_model.specs.Disk.{Image, DiskState, MayLeave, IsSettled};
ghost use Rattle.block_file.specs.Stored.{IsFormatted};
ghost use Rattle.block_file.specs.Opened.{CanBeOpened, LeftByOpening, MayBeLeft};

/// What may be opened: whatever a new volume leaves, a crash of an open volume, and a crash of an opening
/// of a disk that could be opened. Once nothing on a disk is open, it may be opened if what a read gives
/// may.
pub fn may_be_opened()
    ensures formatted { (size files blocks tag : ℕ) (image : Image) → IsFormatted size files blocks tag image → CanBeOpened size image }
    ensures volume { (size tag : ℕ) (homes : ℕ → ℕ) (v : Volume) (image : Image) → MayBeLeft size tag homes v image → CanBeOpened size image }
    ensures opening { (size : ℕ) (s : DiskState) (image : Image) → ((before : Image) → MayLeave s before → CanBeOpened size before)
        → LeftByOpening size s image → CanBeOpened size image }
    ensures settled { (size : ℕ) (s : DiskState) (image : Image) → IsSettled s → CanBeOpened size s.reads → MayLeave s image → CanBeOpened size image }
{}
