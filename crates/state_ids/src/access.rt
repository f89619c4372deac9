ghost use Rattle.std.specs.Prelude.{◌≡◌};
ghost use Rattle.state_ids.specs.Opens.{access_bit};

/// What an operation does with a file.
#[derive(Clone, Copy, PartialEq, Eq)]
pub enum Access {
    Read,
    Write,
}

impl Access {
    /// The bit of OPEN's access word that allows it (RFC 8881 section 18.16).
    pub(crate) fn bit(self) -> u32
        ensures { result ≡ access_bit self }
    {
        match self {
            Access::Read => 1,
            Access::Write => 2,
        }
    }
}
