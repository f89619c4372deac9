//! Results of operations on files.

ghost use Rattle.std.specs.Prelude.{◌≡◌, slice_get, option_and_then};
ghost use Rattle.call_results.specs.Results as spec;

use file_ops::FileRes;
use nfs_base::{Answer, Handle, StateId};
use nfs_compound::Res;
use wire_xdr::{Items, Octets};

/// What an OPEN with a GETFH behind it told (RFC 8881 sections 18.16 and 18.8).
#[derive(Drop)]
pub struct Opened {
    pub id: StateId,
    pub handle: Handle,
}

/// What a WRITE told (RFC 8881 section 18.32): how many bytes were written, and under which verifier.
#[derive(Clone, Copy)]
pub struct Written {
    pub count: u32,
    pub verifier: [u8; 8],
}

/// What the results of PUTROOTFH, OPEN and GETFH tell.
pub fn open_in(results: &[Res]) -> Option<Opened>
    ensures { result ≡ spec.open_in results.now }
{
    let id = opened_id(results.get(2)?)?;
    let handle = told_handle(results.get(3)?)?;
    Some(Opened { id, handle })
}

/// The change attribute that a PUTFH and a GETATTR of it alone tell.
pub fn change_in(results: &[Res]) -> Option<u64>
    ensures { result ≡ spec.at 2 spec.told_change results.now }
{
    told_change(results.get(2)?)
}

/// The size of the file, in bytes, that a PUTFH and a GETATTR of the change attribute and the size tell.
pub fn size_in(results: &[Res]) -> Option<u64>
    ensures { result ≡ spec.at 2 spec.told_size results.now }
{
    told_size(results.get(2)?)
}

/// The bytes that a PUTFH and a READ tell. It takes no memory.
pub fn bytes_in(results: Items<Res>) -> Option<Octets>
    ensures { result ≡ spec.at 2 spec.told_bytes results }
{
    let mut results = results.into_vec();
    if results.len() <= 2 {
        return None;
    }
    told_bytes(results.swap_remove(2))
}

/// What a PUTFH and a WRITE tell.
pub fn written_in(results: &[Res]) -> Option<Written>
    ensures { result ≡ spec.at 2 spec.told_written results.now }
{
    told_written(results.get(2)?)
}

/// The verifier that a PUTFH and a COMMIT tell.
pub fn committed_in(results: &[Res]) -> Option<[u8; 8]>
    ensures { result ≡ spec.at 2 spec.told_committed results.now }
{
    told_committed(results.get(2)?)
}

fn opened_id(res: &Res) -> Option<StateId>
    ensures { result ≡ spec.opened_id res.now }
{
    match res {
        Res::File(FileRes::Open(Answer::Done(open))) => Some(open.state_id),
        _ => None,
    }
}

fn told_handle(res: &Res) -> Option<Handle>
    ensures { result ≡ spec.told_handle res.now }
{
    match res {
        Res::File(FileRes::GetFh(Answer::Done(handle))) => Some(*handle),
        _ => None,
    }
}

pub(crate) fn told_change(res: &Res) -> Option<u64>
    ensures { result ≡ spec.told_change res.now }
{
    match res {
        Res::File(FileRes::GetAttr(Answer::Done(told))) => word_of(told.values.as_slice()),
        _ => None,
    }
}

fn word_of(bytes: &[u8]) -> Option<u64>
    ensures { result ≡ spec.word_of bytes.now }
{
    match bytes {
        [a, b, c, d, e, f, g, h] => { Some(u64::from_be_bytes([*a, *b, *c, *d, *e, *f, *g, *h])) }
        _ => None,
    }
}

fn told_size(res: &Res) -> Option<u64>
    ensures { result ≡ spec.told_size res.now }
{
    match res {
        Res::File(FileRes::GetAttr(Answer::Done(told))) => size_word(told.values.as_slice()),
        _ => None,
    }
}

fn size_word(bytes: &[u8]) -> Option<u64>
    ensures { result ≡ spec.size_word bytes.now }
{
    match bytes {
        [_, _, _, _, _, _, _, _, a, b, c, d, e, f, g, h] => {
            Some(u64::from_be_bytes([*a, *b, *c, *d, *e, *f, *g, *h]))
        }
        _ => None,
    }
}

fn told_bytes(res: Res) -> Option<Octets>
    ensures { result ≡ spec.told_bytes res }
{
    match res {
        Res::File(FileRes::Read(Answer::Done(read))) => Some(read.bytes),
        _ => None,
    }
}

fn told_written(res: &Res) -> Option<Written>
    ensures { result ≡ spec.told_written res.now }
{
    match res {
        Res::File(FileRes::Write(Answer::Done(write))) => {
            let verifier = write.verifier;
            Some(Written {
                count: write.count,
                verifier,
            })
        }
        _ => None,
    }
}

fn told_committed(res: &Res) -> Option<[u8; 8]>
    ensures { result ≡ spec.told_committed res.now }
{
    match res {
        Res::File(FileRes::Commit(Answer::Done(verifier))) => Some(*verifier),
        _ => None,
    }
}
