ghost use Rattle.std.specs.Prelude.{◌≡◌, ◌≤◌, length, IfOk, MatchOption, None, Some};
ghost use Rattle.wire_xdr.specs.All.{value_of};
ghost use Rattle.gss_ctx.specs.Forms.{create, create_result};

use nfs_base::{NAME_LIMIT, PRIVILEGE_LIMIT};
use outcome::Mem;
use std::alloc::Global;
use wire_xdr::{Octets, ReadError, Reader, Writer, Xdr, read_all, write_all};

/// The argument of CREATE: the name of a privilege, and its bytes.
#[derive(Drop)]
pub struct Create {
    pub name: Octets,
    pub privilege: Octets,
}

impl Xdr for Create {
    ghost form = { create };

    #[tactic(auto, unfolding(crate::specs::Forms::create))]
    fn parse(alloc: Global, reader: &mut Reader) -> Result<Create, ReadError> {
        let start = reader.at();
        if u32::parse(alloc, reader)? != 1 {
            return Err(ReadError::at(start));
        }
        let kind = reader.at();
        if u32::parse(alloc, reader)? != 1 {
            return Err(ReadError::at(kind));
        }
        Ok(Create {
            name: Octets::parse(alloc, reader, NAME_LIMIT)?,
            privilege: Octets::parse(alloc, reader, PRIVILEGE_LIMIT)?,
        })
    }

    #[tactic(auto, unfolding(crate::specs::Forms::create))]
    fn put(&self, writer: &mut Writer) -> Mem<()> {
        1u32.put(writer)?;
        1u32.put(writer)?;
        self.name.put(writer)?;
        self.privilege.put(writer)
    }
}

/// The result of CREATE: the child's handle, and a major and a minor status, which are 0 where it was made.
#[derive(Drop)]
pub struct CreateResult {
    pub handle: Octets,
    pub major: u32,
    pub minor: u32,
}

impl Xdr for CreateResult {
    ghost form = { create_result };

    #[tactic(auto, unfolding(crate::specs::Forms::create_result))]
    fn parse(alloc: Global, reader: &mut Reader) -> Result<CreateResult, ReadError> {
        Ok(CreateResult {
            handle: Octets::parse(alloc, reader, u32::MAX)?,
            major: u32::parse(alloc, reader)?,
            minor: u32::parse(alloc, reader)?,
        })
    }

    #[tactic(auto, unfolding(crate::specs::Forms::create_result))]
    fn put(&self, writer: &mut Writer) -> Mem<()> {
        self.handle.put(writer)?;
        self.major.put(writer)?;
        self.minor.put(writer)
    }
}

/// Spells the argument of CREATE: a name of at most 64 bytes and a privilege of at most 2,048.
#[tactic(auto, unfolding(crate::specs::Forms::create))]
pub fn write_create(alloc: Global, name: &[u8], privilege: &[u8]) -> Mem<Octets>
    requires name { length name.now ≤ NAME_LIMIT }
    requires privilege { length privilege.now ≤ PRIVILEGE_LIMIT }
    ensures { IfOk result (λ args. args ≡ create.spell (record { name = name.now; privilege = privilege.now })) }
{
    let create = Create {
        name: Octets::from_slice(alloc, name)?,
        privilege: Octets::from_slice(alloc, privilege)?,
    };
    write_all(alloc, &create)
}

/// Reads the argument of CREATE, a name and a privilege. None exactly where all of the bytes don't spell one.
pub fn read_create(alloc: Global, args: &[u8]) -> Mem<Option<(Octets, Octets)>>
    ensures { IfOk result (λ told. MatchOption told (value_of create args.now ≡ None) (λ v. value_of create args.now ≡ Some (record { name = v.0; privilege = v.1 }))) }
{
    let Some(create) = read_all::<Create>(alloc, args)?.ok() else {
        return Ok(None);
    };
    Ok(Some((create.name, create.privilege)))
}

/// Spells the result of CREATE.
pub fn write_create_result(alloc: Global, result_: &CreateResult) -> Mem<Octets>
    requires { create_result.Fits result_.now }
    ensures { IfOk result (λ body. body ≡ create_result.spell result_.now) }
{
    write_all(alloc, result_)
}

/// Reads the result of CREATE. None exactly where all of the bytes don't spell one.
pub fn read_create_result(alloc: Global, body: &[u8]) -> Mem<Option<CreateResult>>
    ensures { IfOk result (λ told. told ≡ value_of create_result body.now) }
{
    Ok(read_all(alloc, body)?.ok())
}
