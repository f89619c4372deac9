ghost use Rattle.std.specs.Prelude.{◌≡◌};
ghost use Rattle.wire_xdr.specs.declared.form.bad.ReadError.TheVariants.{Memory};
ghost use Rattle.wire_xdr.specs.Form.{place};

use crate::fault::XdrFault;
use outcome::NoMemory;
use std::alloc::{AllocError, AllocFailed};

/// The bytes spell no value. `at` is the place of the item that is refused, counted from the reader's
/// first byte: where a word, a length or a field of bytes begins, also one that is cut short; for
/// padding the byte itself; for an unknown tag the tag.
#[derive(Clone, Copy, PartialEq, Eq)]
pub struct BadXdr {
    pub at: usize,
}

/// Why a value could not be read.
#[derive(Clone, Copy, PartialEq, Eq)]
pub enum ReadError {
    Memory,
    Bad(BadXdr),
}

impl ReadError {
    /// The item that begins at `at` is refused.
    pub fn at(at: usize) -> ReadError
        ensures { result ≡ ReadError.Bad (record { at = at }) }
    {
        ReadError::Bad(BadXdr { at })
    }

    /// A word that begins at `start` has this fault.
    pub fn of_fault(start: usize, fault: XdrFault) -> ReadError
        ensures { result ≡ ReadError.Bad (record { at = place start fault }) }
    {
        match fault {
            XdrFault::BadPad { at } => ReadError::at(at),
            _ => ReadError::at(start),
        }
    }
}

impl From<NoMemory> for ReadError {
    ghost from_gives = { λ _ e. e ≡ Memory };

    fn from(_refused: NoMemory) -> ReadError {
        ReadError::Memory
    }
}

impl From<AllocError> for ReadError {
    ghost from_gives = { λ _ e. e ≡ Memory };

    fn from(_refused: AllocError) -> ReadError {
        ReadError::Memory
    }
}

impl<T: Drop> From<AllocFailed<T>> for ReadError {
    ghost from_gives = { λ _ e. e ≡ Memory };

    fn from(_refused: AllocFailed<T>) -> ReadError {
        ReadError::Memory
    }
}
