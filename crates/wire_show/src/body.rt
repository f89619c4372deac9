//! The operations that a call asks for.

ghost use Rattle.std.specs.Prelude.{◌≡◌, ◌∷◌, [], ◌++◌, ◌<◌, ◌^◌, IfOk, OnOk};
ghost use Rattle.rpc_msg.specs.GssCred.{gss_cred};
ghost use Rattle.rpc_msg.specs.Messages.{first, whole};
ghost use Rattle.wire_xdr.specs.WordReads.{opaque_read};
ghost use Rattle.nfs_compound.specs.Compounds.{compound_of, cb_compound_of};
ghost use Rattle.wire_show.specs.Body.{is_compound, is_callback, numbered, op_line, callback_line, tail_lines, compound_lines, callback_lines, args_lines, behind_number, sealed_lines, is_sealed, by_flavor, body_lines};

use crate::line::ShownLine;
use nfs_base::{CALLBACK_PROGRAM, CALLBACK_VERSION, NFS_PROGRAM, NFS_VERSION, PROC_COMPOUND};
use nfs_compound::{CbOp, Op, Tail, read_cb_compound, read_compound};
use outcome::{Mem, NoMemory};
use rpc_msg::{CallHead, read_gss_cred};
use std::alloc::Global;
use wire_xdr::{Octets, ReadError, Reader};

/// The lines of a call's body, which begins at a place of the record.
#[tactic(auto, unfolding(crate::specs::Body::body_lines))]
pub(crate) fn body_lines(
    alloc: Global,
    head: &CallHead,
    at: u128,
    body: &[u8],
) -> Mem<Vec<ShownLine>>
    requires { at < 2 ^ 64 }
    ensures { IfOk result (λ lines. lines.items ≡ body_lines head.now at body.now) }
{
    if is_callback(head) {
        return by_flavor(alloc, head, true, at, body);
    }
    if is_compound(head) {
        return by_flavor(alloc, head, false, at, body);
    }
    Ok(Vec::new(alloc))
}

/// Whether it is a call of CB_COMPOUND.
fn is_callback(head: &CallHead) -> bool
    ensures { result ≡ is_callback head.now }
{
    head.prog == CALLBACK_PROGRAM && head.vers == CALLBACK_VERSION && head.proc == PROC_COMPOUND
}

/// Whether it is a call of COMPOUND.
fn is_compound(head: &CallHead) -> bool
    ensures { result ≡ is_compound head.now }
{
    head.prog == NFS_PROGRAM && head.vers == NFS_VERSION && head.proc == PROC_COMPOUND
}

/// The lines of the body, by the flavor of the credential.
fn by_flavor(
    alloc: Global,
    head: &CallHead,
    callback: bool,
    at: u128,
    body: &[u8],
) -> Mem<Vec<ShownLine>>
    requires { at < 2 ^ 64 }
    ensures { IfOk result (λ lines. lines.items ≡ by_flavor head.now callback at body.now) }
{
    if head.cred.flavor == 0 {
        return args_lines(alloc, callback, at, body);
    }
    if head.cred.flavor == 6 && is_sealed(alloc, head.cred.body.as_slice())? {
        return sealed_lines(alloc, callback, at, body);
    }
    Ok(Vec::new(alloc))
}

/// Whether the body of a credential of flavor 6 says that data is sealed for integrity.
fn is_sealed(alloc: Global, body: &[u8]) -> Mem<bool>
    ensures { IfOk result (λ is. is ≡ is_sealed (whole (gss_cred.read (first body.now)))) }
{
    match read_gss_cred(alloc, body)? {
        Ok(cred) => Ok(cred.gss_proc == 0 && cred.service == 2),
        Err(_) => Ok(false),
    }
}

/// The lines of a sealed body.
fn sealed_lines(alloc: Global, callback: bool, at: u128, body: &[u8]) -> Mem<Vec<ShownLine>>
    requires { at < 2 ^ 64 }
    ensures { IfOk result (λ lines. lines.items ≡ sealed_lines callback at (opaque_read 4294967295 (first body.now))) }
{
    let mut reader = Reader::new(body);
    match Octets::parse(alloc, &mut reader, u32::MAX) {
        Ok(sealed) => behind_number(alloc, callback, at, sealed.as_slice()),
        Err(ReadError::Bad(bad)) => unread(alloc, at + bad.at as u128),
        Err(ReadError::Memory) => Err(NoMemory),
    }
}

/// The lines of what was sealed, behind its sequence number.
fn behind_number(alloc: Global, callback: bool, at: u128, sealed: &[u8]) -> Mem<Vec<ShownLine>>
    requires { at < 2 ^ 64 }
    ensures { IfOk result (λ lines. lines.items ≡ behind_number callback at sealed.now) }
{
    if sealed.len() < 4 {
        return unread(alloc, at + 4);
    }
    args_lines(alloc, callback, at + 8, &sealed[4..])
}

/// The lines of arguments, which begin at a place of the record.
fn args_lines(alloc: Global, callback: bool, at: u128, bytes: &[u8]) -> Mem<Vec<ShownLine>>
    requires { at < 2 ^ 65 }
    ensures { IfOk result (λ lines. lines.items ≡ args_lines callback at bytes.now) }
{
    if callback {
        callback_lines(alloc, at, bytes)
    } else {
        compound_lines(alloc, at, bytes)
    }
}

/// The lines of a COMPOUND.
fn compound_lines(alloc: Global, at: u128, bytes: &[u8]) -> Mem<Vec<ShownLine>>
    requires { at < 2 ^ 65 }
    ensures { IfOk result (λ lines. lines.items ≡ compound_lines at (compound_of bytes.now)) }
{
    match read_compound(alloc, bytes)? {
        Ok(compound) => {
            let mut lines = op_lines(alloc, compound.ops.as_slice())?;
            push_tail(&mut lines, compound.tail)?;
            Ok(lines)
        }
        Err(bad) => unread(alloc, at + bad.at as u128),
    }
}

/// The lines of a CB_COMPOUND.
fn callback_lines(alloc: Global, at: u128, bytes: &[u8]) -> Mem<Vec<ShownLine>>
    requires { at < 2 ^ 65 }
    ensures { IfOk result (λ lines. lines.items ≡ callback_lines at (cb_compound_of bytes.now)) }
{
    match read_cb_compound(alloc, bytes)? {
        Ok(compound) => {
            let mut lines = cb_lines(alloc, compound.ops.as_slice())?;
            push_tail(&mut lines, compound.tail)?;
            Ok(lines)
        }
        Err(bad) => unread(alloc, at + bad.at as u128),
    }
}

/// The one line of what can't be read from a place on.
fn unread(alloc: Global, at: u128) -> Mem<Vec<ShownLine>>
    ensures { IfOk result (λ lines. lines.items ≡ ShownLine.Unread at ∷ []) }
{
    Ok(vec![in alloc; ShownLine::Unread { at }]?)
}

/// A line for each operation, by its place.
fn op_lines(alloc: Global, ops: &[Op]) -> Mem<Vec<ShownLine>>
    ensures { IfOk result (λ lines. lines.items ≡ numbered op_line 0 ops.now) }
{
    let mut lines = Vec::new(alloc);
    for (place, op) in ops.iter().enumerate() {
        lines.push(ShownLine::Op {
            place,
            op: op.number(),
        })?;
    }
    Ok(lines)
}

/// The same for callbacks.
fn cb_lines(alloc: Global, ops: &[CbOp]) -> Mem<Vec<ShownLine>>
    ensures { IfOk result (λ lines. lines.items ≡ numbered callback_line 0 ops.now) }
{
    let mut lines = Vec::new(alloc);
    for (place, op) in ops.iter().enumerate() {
        lines.push(ShownLine::Callback {
            place,
            op: op.number(),
        })?;
    }
    Ok(lines)
}

/// The line of what stands behind the operations that were read, where there is something.
fn push_tail(lines: &mut Vec<ShownLine>, tail: Tail) -> Mem<()>
    ensures { OnOk result (lines.new.items ≡ lines.old.items ++ tail_lines tail) }
{
    match tail {
        Tail::Whole => {}
        Tail::Unreadable { place, .. } => lines.push(ShownLine::Unreadable { place })?,
        Tail::Unsupported { place, .. } => lines.push(ShownLine::Unsupported { place })?,
        Tail::Illegal { place, .. } => lines.push(ShownLine::Illegal { place })?,
    }
    Ok(())
}
