ghost use Rattle.std.specs.Prelude.{◌≡◌, ◌↔◌, IsTrue};
ghost use Rattle.disk_model.specs.Elapsed.{burnt, set_to, IsOut};

/// How many more writes and syncs pass before the machine stops.
#[derive(Clone, Copy, Debug, PartialEq, Eq)]
pub enum Fuse {
    /// No fuse is set.
    Unset,
    /// So many more calls pass, and the one after them stops the machine.
    Burning(u64),
    /// The machine has stopped.
    Out,
}

impl Fuse {
    /// The fuse after one more write or sync.
    pub fn burn(self) -> Fuse
        ensures { result ≡ burnt self }
    {
        match self {
            Fuse::Burning(0) => Fuse::Out,
            Fuse::Burning(calls) => Fuse::Burning(calls - 1),
            other => other,
        }
    }

    /// The fuse after it is set to let so many calls pass. A machine that has stopped stays stopped.
    pub fn set(self, calls: u64) -> Fuse
        ensures { result ≡ set_to self calls }
    {
        match self {
            Fuse::Out => Fuse::Out,
            Fuse::Unset | Fuse::Burning(_) => Fuse::Burning(calls),
        }
    }

    /// Whether the machine has stopped.
    pub fn is_out(self) -> bool
        ensures { IsTrue result ↔ IsOut self }
    {
        self == Fuse::Out
    }
}
