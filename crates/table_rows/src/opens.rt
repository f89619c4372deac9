//! Opens, all of one client.

use crate::fields::{tell, tell_flag, tell_number, tell_status};
use nfs_base::StateId;
use outcome::Mem;
use row_text::{number, word};
use state_ids::{Access, Full, Opens};
use std::alloc::Global;
use std::fmt::Write;
use wire_xdr::Octets;

const CLIENT: u64 = 7;

/// The answers to `open OWNER ACCESS` of file 1, and `open_taken`, by the call that takes its owner over; `opened`, with
/// how often; `check SEQID KIND BOOT NUMBER FILE NEED`, with 0 or a status; `close SEQID KIND BOOT NUMBER FILE`; `holds
/// CLIENT`; and `end CLIENT`.
pub fn answer(alloc: Global, opens: &mut Opens, words: &[&str], text: &mut String) -> Mem<()> {
    match word(words, 0) {
        "open" => open(opens, words, text),
        "open_taken" => open_taken(alloc, opens, words, text),
        "check" => check(opens, words, text),
        "close" => close(opens, words, text),
        "opened" => tell_number(opens.made(), text),
        "holds" => tell_flag(opens.holds(u64::from(number(words, 1))), text),
        _ => {
            opens.end(u64::from(number(words, 1)));
            tell(text, "ended")
        }
    }
}

fn id(words: &[&str]) -> StateId {
    StateId {
        seqid: number(words, 1),
        kind: number(words, 2),
        boot: number(words, 3),
        number: number(words, 4),
    }
}

fn tell_id(id: StateId, text: &mut String) -> Mem<()> {
    let StateId {
        seqid,
        kind,
        boot,
        number,
    } = id;
    Ok(write!(text, "{seqid} {kind} {boot} {number}")?)
}

fn tell_opened(answer: Result<StateId, Full>, text: &mut String) -> Mem<()> {
    match answer {
        Ok(id) => tell_id(id, text),
        Err(Full) => tell(text, "full"),
    }
}

fn open(opens: &mut Opens, words: &[&str], text: &mut String) -> Mem<()> {
    if opens.made() == u32::MAX {
        return tell(text, "no number is left");
    }
    let owner = number(words, 1).to_be_bytes();
    let answer = opens.open(CLIENT, &owner, 1, number(words, 2))?;
    tell_opened(answer, text)
}

fn open_taken(alloc: Global, opens: &mut Opens, words: &[&str], text: &mut String) -> Mem<()> {
    if opens.made() == u32::MAX {
        return tell(text, "no number is left");
    }
    let owner = Octets::from_slice(alloc, &number(words, 1).to_be_bytes())?;
    let answer = opens.open_taken(CLIENT, owner, 1, number(words, 2));
    tell_opened(answer, text)
}

fn check(opens: &Opens, words: &[&str], text: &mut String) -> Mem<()> {
    let need = match word(words, 6) {
        "write" => Access::Write,
        _ => Access::Read,
    };
    match opens.check(&id(words), number(words, 5), need) {
        Ok(()) => tell(text, "0"),
        Err(status) => tell_status(status, text),
    }
}

fn close(opens: &mut Opens, words: &[&str], text: &mut String) -> Mem<()> {
    match opens.close(&id(words), number(words, 5)) {
        Ok(id) => tell_id(id, text),
        Err(status) => tell_status(status, text),
    }
}
