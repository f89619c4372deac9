ghost use Rattle.std.specs.Prelude.{◌≡◌, ◌≤◌, ◌↔◌, ℕ, List, length, IsSome, IfSome, IfOk};
ghost use Rattle.wire_xdr.specs.Reads.{Reads};
ghost use Rattle.nfs_base.specs.Forms.{handle};
ghost use Rattle.nfs_base.specs.HandleBytes.{filled};

use crate::HANDLE_LIMIT;
use outcome::Mem;
use std::alloc::Global;
use std::marker::Model;
use wire_xdr::{Octets, ReadError, Reader, Writer, Xdr};

/// A file handle (nfs_fh4, RFC 8881 section 4): 1 to 128 bytes that mean something to their server alone.
/// Contracts see the bytes.
#[derive(Clone, Copy)]
pub struct Handle {
    /// The handle's bytes, and zeros behind them.
    bytes: [u8; HANDLE_LIMIT as usize],
    len: usize,
}

impl Model for Handle {
    ghost use Rattle.std.specs.Prelude.{◌≡◌, ◌≤◌, ℕ, List, length, take};
    ghost use Rattle.nfs_base.specs.declared.limits.TheConstants.{HANDLE_LIMIT};
    ghost use Rattle.nfs_base.specs.HandleBytes.{filled};

    ghost Value = { List ℕ };

    ghost view = { λ h. take h.len h.bytes };

    ghost invariant = { λ h. (1 ≤ h.len) × (h.len ≤ HANDLE_LIMIT) × (length h.bytes ≡ HANDLE_LIMIT) × (h.bytes ≡ filled (take h.len h.bytes)) };

    ghost inverse = { λ v. record { bytes = filled v; len = length v } };
}

/// The bytes, and zeros behind them.
fn filled(bytes: &[u8]) -> [u8; HANDLE_LIMIT as usize]
    requires { length bytes.now ≤ HANDLE_LIMIT }
    ensures { result ≡ filled bytes.now }
{
    let mut field = [0; HANDLE_LIMIT as usize];
    field[..bytes.len()].copy_from_slice(bytes);
    field
}

/// Reads the bytes of a handle.
#[tactic(auto, unfolding(crate::specs::Forms::handle))]
fn parse_octets(alloc: Global, reader: &mut Reader) -> Result<Octets, ReadError>
    ensures read { Reads result reader.new (handle.read reader.old) }
    ensures limits { IfOk result (λ octets. (1 ≤ length octets) × (length octets ≤ HANDLE_LIMIT)) }
{
    let _rest = reader.rest();
    Octets::parse_between(alloc, reader, 1, HANDLE_LIMIT)
}

impl Handle {
    /// The handle of these bytes, where there are 1 to 128.
    pub fn new(bytes: &[u8]) -> Option<Handle>
        ensures some { IsSome result ↔ ((1 ≤ length bytes.now) × (length bytes.now ≤ HANDLE_LIMIT)) }
        ensures same { IfSome result (λ handle. handle ≡ bytes.now) }
    {
        if bytes.is_empty() || bytes.len() > HANDLE_LIMIT as usize {
            return None;
        }
        Some(Handle {
            bytes: filled(bytes),
            len: bytes.len(),
        })
    }

    /// The bytes, lent: 1 to 128 of them, so that each handle has a spelling.
    #[tactic(auto, unfolding(crate::specs::Forms::handle))]
    pub fn as_slice(&self) -> &[u8]
        ensures bytes { result.now ≡ self.now }
        ensures some { 1 ≤ length self.now }
        ensures limit { length self.now ≤ HANDLE_LIMIT }
        ensures spelled { handle.Fits self.now }
    {
        &self.bytes[..self.len]
    }
}

impl Xdr for Handle {
    ghost form = { handle };

    #[tactic(auto, unfolding(crate::specs::Forms::handle))]
    fn parse(alloc: Global, reader: &mut Reader) -> Result<Handle, ReadError> {
        let octets = parse_octets(alloc, reader)?;
        let bytes = octets.as_slice();
        Ok(Handle {
            bytes: filled(bytes),
            len: bytes.len(),
        })
    }

    #[tactic(auto, unfolding(crate::specs::Forms::handle))]
    fn put(&self, writer: &mut Writer) -> Mem<()> {
        writer.opaque(self.as_slice())
    }
}
