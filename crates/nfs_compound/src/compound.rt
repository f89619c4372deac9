//! The arguments of a COMPOUND.

ghost use Rattle.std.specs.Prelude.{◌≡◌, ◌≤◌, IfOk, length};
ghost use Rattle.nfs_base.specs.declared.limits.TheConstants.{TEXT_LIMIT};
ghost use Rattle.nfs_compound.specs.declared.tail.Tail.TheVariants.{Whole};
ghost use Rattle.nfs_compound.specs.Compounds.{compound_at, compound_of, compound_bytes, CompoundFits, IsFound};
ghost use Rattle.nfs_compound.specs.Whole.{IsTold, Answers};

use crate::body::parse_body;
use crate::op::Op;
use crate::tail::Tail;
use nfs_base::TEXT_LIMIT;
use outcome::{Mem, NoMemory};
use std::alloc::Global;
use wire_xdr::{BadXdr, Items, Octets, ReadError, Reader, Writer, Xdr};

/// The minor version that a COMPOUND and a CB_COMPOUND of ours have: NFSv4.2 (RFC 7862).
pub const MINOR_VERSION: u32 = 2;

/// The arguments of COMPOUND, COMPOUND4args (RFC 8881 section 16.2). A tag has at most 1,024 bytes.
#[derive(Drop)]
pub struct Compound {
    pub tag: Octets,
    pub minor: u32,
    /// How many operations the bytes say that there are. What is written has the number of `ops` there.
    pub count: u32,
    /// The operations, up to the first that can't be read or isn't served.
    pub ops: Items<Op>,
    /// What stands behind them.
    pub tail: Tail,
}

/// Reads a COMPOUND, which is all of the bytes. It is refused exactly where the tag, the minor version or the
/// number of operations can't be read, at the item that can't, also at the length of a tag that is longer than
/// 1,024 bytes, and where bytes follow the last operation, at the first of them. Otherwise its operations are read up
/// to the first that can't be read or isn't served, so at most as many as are counted, and the tail says where that
/// stands and why. Behind an operation that is cut nothing is looked at. What was read may be written again, where
/// the tail is `Whole`.
pub fn read_compound(alloc: Global, bytes: &[u8]) -> Mem<Result<Compound, BadXdr>>
    ensures exact { IfOk result (Answers (compound_of bytes.now)) }
    ensures found { IfOk result (IsFound bytes.now) }
    ensures tag { IfOk result (λ told. IfOk told (λ compound. length compound.tag ≤ TEXT_LIMIT)) }
    ensures few { IfOk result (λ told. IfOk told (λ compound. length compound.ops ≤ compound.count)) }
{
    let mut reader = Reader::new(bytes);
    let _rest = reader.rest();
    match parse_compound(alloc, &mut reader) {
        Ok(compound) => Ok(Ok(compound)),
        Err(ReadError::Bad(bad)) => Ok(Err(bad)),
        Err(ReadError::Memory) => Err(NoMemory),
    }
}

/// Reads a COMPOUND up to the end of the bytes.
#[tactic(auto, unfolding(crate::specs::Compounds::compound_at))]
fn parse_compound(alloc: Global, reader: &mut Reader) -> Result<Compound, ReadError>
    ensures { IsTold result (compound_at reader.old) }
{
    let tag = Octets::parse(alloc, reader, TEXT_LIMIT)?;
    let (minor, count) = <(u32, u32)>::parse(alloc, reader)?;
    let (ops, tail) = parse_body(alloc, reader, count)?;
    Ok(Compound {
        tag,
        minor,
        count,
        ops,
        tail,
    })
}

/// The spelling of a whole COMPOUND, with the number of `ops` before the operations.
#[tactic(auto, unfolding(crate::specs::Compounds::compound_bytes))]
pub fn write_compound(alloc: Global, compound: &Compound) -> Mem<Octets>
    requires whole { compound.now.tail ≡ Whole }
    requires fits { CompoundFits compound.now }
    ensures { IfOk result (λ bytes. bytes ≡ compound_bytes compound.now) }
{
    let mut writer = Writer::new(alloc)?;
    compound.tag.put(&mut writer)?;
    compound.minor.put(&mut writer)?;
    compound.ops.put(&mut writer)?;
    Ok(writer.finish())
}
