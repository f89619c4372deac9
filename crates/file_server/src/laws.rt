ghost use Rattle.std.specs.Prelude.{◌≡◌, ℕ, ◌+◌, ◌<◌, ◌≤◌, List, Ok, decimal};
ghost use Rattle.nfs_base.specs.declared.limits.TheConstants.{MOST_FILES};
ghost use Rattle.file_server.specs.declared.progress.Progress.{Progress};
ghost use Rattle.file_server.specs.Answering.{Ready, Keeps};
ghost use Rattle.file_server.specs.Names.{file_named};

/// Under the root each file of a volume is found by its number in decimal, and by no other name.
pub fn files_are_named_in_decimal()
    ensures found { (files file : ℕ) → 1 ≤ file → file < files → file ≤ MOST_FILES → file_named files (decimal file) ≡ Ok file }
    ensures alone { (files file : ℕ) (name : List ℕ) → file_named files name ≡ Ok file → name ≡ decimal file }
{}

/// What an operation leaves of the room is enough for those behind it.
pub fn room_is_left()
    ensures { (before after : Progress) (operations : ℕ) → Ready before (operations + 1) → Keeps before after → Ready after operations }
{}
