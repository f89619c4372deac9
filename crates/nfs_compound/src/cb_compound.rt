//! The arguments of a CB_COMPOUND.

ghost use Rattle.std.specs.Prelude.{◌≡◌, IfOk};
ghost use Rattle.nfs_compound.specs.declared.tail.Tail.TheVariants.{Whole};
ghost use Rattle.nfs_compound.specs.Compounds.{cb_compound_at, cb_compound_of, cb_compound_bytes, CbCompoundFits, IsCbFound};
ghost use Rattle.nfs_compound.specs.Whole.{IsTold, Answers};

use crate::body::parse_body;
use crate::cb_op::CbOp;
use crate::tail::Tail;
use nfs_base::TEXT_LIMIT;
use outcome::{Mem, NoMemory};
use std::alloc::Global;
use wire_xdr::{BadXdr, Items, Octets, ReadError, Reader, Writer, Xdr};

/// The arguments of CB_COMPOUND, CB_COMPOUND4args (RFC 8881 section 20.2).
#[derive(Drop)]
pub struct CbCompound {
    pub tag: Octets,
    pub minor: u32,
    pub ident: u32,
    /// How many operations the bytes say that there are. What is written has the number of `ops` there.
    pub count: u32,
    /// The operations, up to the first that can't be read or isn't served.
    pub ops: Items<CbOp>,
    /// What stands behind them.
    pub tail: Tail,
}

/// Reads a CB_COMPOUND, which is all of the bytes, as [`crate::read_compound`] reads a COMPOUND.
pub fn read_cb_compound(alloc: Global, bytes: &[u8]) -> Mem<Result<CbCompound, BadXdr>>
    ensures exact { IfOk result (Answers (cb_compound_of bytes.now)) }
    ensures found { IfOk result (IsCbFound bytes.now) }
{
    let mut reader = Reader::new(bytes);
    let _rest = reader.rest();
    match parse_cb_compound(alloc, &mut reader) {
        Ok(compound) => Ok(Ok(compound)),
        Err(ReadError::Bad(bad)) => Ok(Err(bad)),
        Err(ReadError::Memory) => Err(NoMemory),
    }
}

/// Reads a CB_COMPOUND up to the end of the bytes.
#[tactic(auto, unfolding(crate::specs::Compounds::cb_compound_at))]
fn parse_cb_compound(alloc: Global, reader: &mut Reader) -> Result<CbCompound, ReadError>
    ensures { IsTold result (cb_compound_at reader.old) }
{
    let tag = Octets::parse(alloc, reader, TEXT_LIMIT)?;
    let (minor, (ident, count)) = <(u32, (u32, u32))>::parse(alloc, reader)?;
    let (ops, tail) = parse_body(alloc, reader, count)?;
    Ok(CbCompound {
        tag,
        minor,
        ident,
        count,
        ops,
        tail,
    })
}

/// The spelling of a whole CB_COMPOUND, with the number of `ops` before the operations.
#[tactic(auto, unfolding(crate::specs::Compounds::cb_compound_bytes))]
pub fn write_cb_compound(alloc: Global, compound: &CbCompound) -> Mem<Octets>
    requires whole { compound.now.tail ≡ Whole }
    requires fits { CbCompoundFits compound.now }
    ensures { IfOk result (λ bytes. bytes ≡ cb_compound_bytes compound.now) }
{
    let mut writer = Writer::new(alloc)?;
    compound.tag.put(&mut writer)?;
    (compound.minor, compound.ident).put(&mut writer)?;
    compound.ops.put(&mut writer)?;
    Ok(writer.finish())
}
