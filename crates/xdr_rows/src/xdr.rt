//! XDR: the example of RFC 4506 section 7, a type of each other kind, and the replies to COMPOUND and CB_COMPOUND, read and written, with
//! the place of every refusal.
//!
//! `sample.rt` and `specs/Samples.antt` show how a type is given its form: a struct, unions with and without a
//! default arm, a list with a limit, a value that may be missing, and a type whose number stands elsewhere.

mod sample;

use crate::told::tell;
use crate::xdr::sample::{File, FileKind, Folder, Outcome, Request};
use nfs_compound::{CbReply, Reply};
use outcome::Mem;
use row_text::{bytes, number, word};
use std::alloc::Global;
use std::fmt::Write;
use wire_xdr::*;

/// What bytes begin with, `KIND BYTES`, or what all of them are; or the fault of a word, `KIND LIMIT BYTES`.
pub fn answer(alloc: Global, words: &[&str], text: &mut String) -> Mem<()> {
    match word(words, 0) {
        "opaque" | "flag" | "word" => {
            let bytes = bytes(alloc, words, 2)?;
            fault(word(words, 0), number(words, 1), &bytes, text)
        }
        kind => tell_bytes(alloc, kind, &bytes(alloc, words, 1)?, text),
    }
}

fn tell_bytes(alloc: Global, kind: &str, bytes: &[u8], text: &mut String) -> Mem<()> {
    match kind {
        "file" => front::<File>(alloc, bytes, text),
        "folder" => front::<Folder>(alloc, bytes, text),
        "outcome" => front::<Outcome>(alloc, bytes, text),
        "all_file" => all::<File>(alloc, bytes, text),
        "all_word" => all::<u32>(alloc, bytes, text),
        "reply" => all::<Reply>(alloc, bytes, text),
        "cb_reply" => all::<CbReply>(alloc, bytes, text),
        _ => tell(text, "no such call"),
    }
}

/// The laws of words, and those of every form at a type, as a caller names them.
pub fn hold_laws() {
    words_are_forms();
    word_lengths();
    is_form::<FileKind>();
    refused_within::<FileKind>();
    one_spelling::<FileKind>();
    no_prefix::<FileKind>();
    all_is_spelled::<FileKind>();
    one_spelling_by::<Request>();
    no_prefix_by::<Request>();
}

/// Tells how many bytes were passed, where they are the ones that were written.
fn tell_again(passed: Option<&[u8]>, written: &[u8], text: &mut String) -> Mem<()> {
    match passed {
        Some(front) if front == written => Ok(write!(text, "{}", front.len())?),
        _ => tell(text, "written otherwise"),
    }
}

/// What the bytes begin with, or the place that is refused; the reader then stands at the front.
fn front<T: Xdr>(alloc: Global, bytes: &[u8], text: &mut String) -> Mem<()> {
    let mut reader = Reader::new(bytes);
    match read::<T>(alloc, &mut reader)? {
        Ok(value) => front_again(alloc, &value, bytes.get(..reader.at()), text),
        Err(BadXdr { at }) => Ok(write!(text, "refused {at} from {}", reader.at())?),
    }
}

fn front_again<T: Xdr>(
    alloc: Global,
    value: &T,
    passed: Option<&[u8]>,
    text: &mut String,
) -> Mem<()>
    requires { T.form.Fits value.now }
{
    let mut writer = Writer::new(alloc)?;
    write(alloc, &mut writer, value)?;
    tell(text, "read ")?;
    tell_again(passed, writer.as_slice(), text)
}

/// What all of the bytes are.
fn all<T: Xdr>(alloc: Global, bytes: &[u8], text: &mut String) -> Mem<()> {
    match read_all::<T>(alloc, bytes)? {
        Ok(value) => all_again(alloc, &value, bytes, text),
        Err(BadXdr { at }) => Ok(write!(text, "refused {at}")?),
    }
}

fn all_again<T: Xdr>(alloc: Global, value: &T, bytes: &[u8], text: &mut String) -> Mem<()>
    requires { T.form.Fits value.now }
{
    let written = write_all(alloc, value)?;
    tell(text, "all ")?;
    tell_again(Some(bytes), written.as_slice(), text)
}

/// The fault of a word of a kind, and where the reader then stands: at the front, where it stood.
fn fault(kind: &str, limit: u32, bytes: &[u8], text: &mut String) -> Mem<()> {
    let mut reader = Reader::new(bytes);
    let fault = match kind {
        "opaque" => reader.opaque(limit).err(),
        "flag" => reader.flag().err(),
        _ => reader.u32().err(),
    };
    Ok(write!(text, "{fault:?} at {}", reader.at())?)
}
