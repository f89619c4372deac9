ghost use Rattle.std.specs.Prelude.{◌≡◌, ℕ, List, IfOk, Ok, Some};
ghost use Rattle.copy_privs.specs.Forms.{privilege, privilege_row, privilege_own, privilege_name, privilege_spell, PrivilegeFits, row_of};
ghost use Rattle.copy_privs.specs.Told.{privilege_told, told_in, IsFound, IsRow};
ghost use Rattle.copy_privs.specs.declared.privilege.Privilege.{Privilege};

use crate::PrivFault;
use nfs_base::{MOST_NET_LOCS, NAME_LIMIT, NetLoc, SECRET_LEAST, SECRET_LIMIT};
use outcome::Mem;
use std::alloc::Global;
use wire_xdr::{Items, Octets, ReadError, Reader, Writer, Xdr, XdrBy, read_by};

/// What a context may carry besides its principal (RFC 7862 section 4.10.1.1). A secret has 16 to 64 bytes, and
/// is the copy's own; a user's name and a code have at most 64.
#[derive(Drop)]
pub enum Privilege {
    /// copy_from_auth, from the client to the source: this destination may read by the secret, for the user.
    From {
        secret: Octets,
        destination: NetLoc,
        user: Octets,
    },

    /// copy_to_auth, from the client to the destination: it may read from these places by the secret, for
    /// the user.
    To {
        secret: Octets,
        sources: Items<NetLoc>,
        user: Octets,
    },

    /// copy_confirm_auth, from the destination to the source: it knows the secret of the user's copy.
    Confirm {
        mic: Octets,
        user: Octets,
    },
}

const FROM: u32 = 0;

const TO: u32 = 1;

const CONFIRM: u32 = 2;

impl Privilege {
    /// The name under which CREATE carries it.
    pub fn name(&self) -> &'static [u8]
        ensures { result.now ≡ privilege_name self.now }
    {
        match self {
            Privilege::From { .. } => b"copy_from_auth",
            Privilege::To { .. } => b"copy_to_auth",
            Privilege::Confirm { .. } => b"copy_confirm_auth",
        }
    }
}

impl XdrBy for Privilege {
    ghost form = { privilege };

    ghost number_of = { privilege_row };

    #[tactic(auto, unfolding(crate::specs::Forms::privilege))]
    fn parse_by(alloc: Global, number: u32, reader: &mut Reader) -> Result<Privilege, ReadError> {
        match number {
            FROM => Ok(Privilege::From {
                secret: Octets::parse_between(alloc, reader, SECRET_LEAST, SECRET_LIMIT)?,
                destination: NetLoc::parse(alloc, reader)?,
                user: Octets::parse(alloc, reader, NAME_LIMIT)?,
            }),
            TO => Ok(Privilege::To {
                secret: Octets::parse_between(alloc, reader, SECRET_LEAST, SECRET_LIMIT)?,
                sources: Items::parse(alloc, reader, MOST_NET_LOCS)?,
                user: Octets::parse(alloc, reader, NAME_LIMIT)?,
            }),
            CONFIRM => Ok(Privilege::Confirm {
                mic: Octets::parse(alloc, reader, NAME_LIMIT)?,
                user: Octets::parse(alloc, reader, NAME_LIMIT)?,
            }),
            _ => Err(ReadError::at(reader.at())),
        }
    }

    #[tactic(auto, unfolding(crate::specs::Forms::privilege))]
    fn put_by(&self, writer: &mut Writer) -> Mem<()> {
        match self {
            Privilege::From {
                secret,
                destination,
                user,
            } => {
                secret.put(writer)?;
                destination.put(writer)?;
                user.put(writer)
            }
            Privilege::To {
                secret,
                sources,
                user,
            } => {
                secret.put(writer)?;
                sources.put(writer)?;
                user.put(writer)
            }
            Privilege::Confirm { mic, user } => {
                mic.put(writer)?;
                user.put(writer)
            }
        }
    }

    ghost own = { privilege_own };
}

/// The row of a name in the table of privileges.
fn row_of(name: &[u8]) -> Option<u32>
    ensures { result ≡ row_of name.now }
{
    if name == b"copy_from_auth".as_slice() {
        return Some(FROM);
    }
    if name == b"copy_to_auth".as_slice() {
        return Some(TO);
    }
    if name == b"copy_confirm_auth".as_slice() {
        return Some(CONFIRM);
    }
    None
}

/// Reads the privilege of a name, which is all of the bytes. `UnknownName` comes exactly where the name is
/// none of the three; otherwise `BadXdr` names the first item that is refused, or where bytes follow.
pub fn read_privilege(alloc: Global, name: &[u8], bytes: &[u8]) -> Mem<Result<Privilege, PrivFault>>
    ensures exact { IfOk result (λ told. told ≡ privilege_told name.now bytes.now) }
    ensures found { IfOk result (IsFound name.now bytes.now) }
    ensures only { (p : Privilege) → name.now ≡ privilege_name p → PrivilegeFits p → bytes.now ≡ privilege_spell p → IfOk result (λ told. told ≡ Ok p) }
{
    match row_of(name) {
        Some(row) => read_row(alloc, row, bytes),
        None => Ok(Err(PrivFault::UnknownName)),
    }
}

fn read_row(alloc: Global, row: u32, bytes: &[u8]) -> Mem<Result<Privilege, PrivFault>>
    ensures exact { IfOk result (λ told. told ≡ told_in (Some row) bytes.now) }
    ensures found { IfOk result (IsRow row bytes.now) }
    ensures only { (p : Privilege) → (privilege row).Fits p → bytes.now ≡ (privilege row).spell p → IfOk result (λ told. told ≡ Ok p) }
{
    let mut reader = Reader::new(bytes);
    match read_by::<Privilege>(alloc, row, &mut reader)? {
        Ok(privilege) => {
            if reader.rest().is_empty() {
                return Ok(Ok(privilege));
            }
            Ok(Err(PrivFault::BadXdr { at: reader.at() }))
        }
        Err(bad) => Ok(Err(PrivFault::BadXdr { at: bad.at })),
    }
}

/// The spelling of a privilege, which stands in CREATE under its name. Each location's strings and the number
/// of the sources must be within their limits, and so must the secret, the code and the user.
pub fn write_privilege(alloc: Global, value: &Privilege) -> Mem<Octets>
    requires { PrivilegeFits value.now }
    ensures { IfOk result (λ bytes. bytes ≡ privilege_spell value.now) }
{
    let mut writer = Writer::new(alloc)?;
    value.put_by(&mut writer)?;
    Ok(writer.finish())
}
