//! Operations behind their count, read up to the first that can't be read or isn't served.

ghost use Rattle.nfs_compound.specs.Body.{one_at, body_at, TakesOne};
ghost use Rattle.nfs_compound.specs.Whole.{IsTold};

use crate::operation::{Class, Operation};
use crate::tail::Tail;
use file_ops::OP_ILLEGAL;
use outcome::{Mem, NoMemory};
use std::alloc::Global;
use wire_xdr::{Items, ReadError, Reader, Xdr};

/// Reads the operations that follow, `count` of them, and the end of the bytes behind them.
pub(crate) fn parse_body<O: Operation>(
    alloc: Global,
    reader: &mut Reader,
    count: u32,
) -> Result<(Items<O>, Tail), ReadError>
    ensures { IsTold result (body_at (one_at O.class O.form) O.is_cut count 0 reader.old) }
{
    let mut ops = Items::new(alloc);
    for place in 0..count {
        match parse_one::<O>(alloc, place, reader)? {
            Ok(op) => {
                let is_last = op.cuts();
                ops.push(op)?;
                if is_last {
                    return Ok((ops, Tail::Whole));
                }
            }
            Err(tail) => return Ok((ops, tail)),
        }
    }
    if reader.rest().is_empty() {
        Ok((ops, Tail::Whole))
    } else {
        Err(ReadError::at(reader.at()))
    }
}

/// Reads the operation at a place.
#[tactic(auto, unfolding(crate::specs::Body::one_at))]
fn parse_one<O: Operation>(alloc: Global, place: u32, reader: &mut Reader) -> Mem<Result<O, Tail>>
    ensures { TakesOne result reader.new (one_at O.class O.form place reader.old) }
{
    let op = match u32::parse(alloc, reader) {
        Ok(op) => op,
        Err(ReadError::Bad(bad)) => {
            return Ok(Err(Tail::Unreadable {
                place,
                op: OP_ILLEGAL,
                at: bad.at,
            }));
        }
        Err(ReadError::Memory) => return Err(NoMemory),
    };
    match O::class_of(op) {
        Class::Listed => match O::parse_by(alloc, op, reader) {
            Ok(value) => Ok(Ok(value)),
            Err(ReadError::Bad(bad)) => Ok(Err(Tail::Unreadable {
                place,
                op,
                at: bad.at,
            })),
            Err(ReadError::Memory) => Err(NoMemory),
        },
        Class::Unsupported => Ok(Err(Tail::Unsupported { place, op })),
        Class::Illegal => Ok(Err(Tail::Illegal { place, op })),
    }
}
