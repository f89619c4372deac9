//! Tables over what stands in memory, from standard input (`row_text`): sources, sinks and draws, crate `streams`; the pump and watched
//! links, crate `rpc_msg`; types of XDR with the place of each refusal, crate `wire_xdr`; and the results of operations, crate
//! `nfs_compound`. Recorded results are read and written back byte for byte. Every other answer is written by hand from
//! `docs/formats.md`, RFC 4506, RFC 5531, RFC 7863 and RFC 8881.
//!
//! What bytes are as records, as heads and as the arguments of operations is told by the command `show`, and tested of that in `tests/`.
#![tactic(auto)]

mod links;
mod memory;
mod told;
mod xdr;

use outcome::Mem;
use row_text::{Rows, compare, number, word, words};
use std::alloc::Global;
use std::io;

#[derive(Drop)]
struct XdrRows;

impl Rows for XdrRows {
    fn answer(&mut self, alloc: Global, call: &str) -> Mem<String> {
        let mut text = String::new(alloc);
        tell(alloc, call, &mut text)?;
        Ok(text)
    }
}

/// Tells the answer to a call.
fn tell(alloc: Global, call: &str, text: &mut String) -> Mem<()> {
    let words = words(alloc, call)?;
    tell_words(alloc, &words, text)
}

fn tell_words(alloc: Global, words: &[&str], text: &mut String) -> Mem<()> {
    let (first, second) = (number(words, 1), number(words, 2));
    match word(words, 0) {
        "takes" => memory::takes(alloc, words, text),
        "sink" => memory::puts(alloc, words, text),
        "digests" => memory::digests(first, text),
        "draws" => memory::draws(alloc, first, second, text),
        "pump" => links::pump(alloc, words, text),
        "watch" => links::watch(alloc, words, text),
        _ => xdr::answer(alloc, words, text),
    }
}

fn main(rt: HostRuntime) -> io::Result<()> {
    xdr::hold_laws();
    compare(&rt, &mut XdrRows)
}
