//! Tables over the contexts of RPCSEC_GSS, crate `gss_ctx`, with the mechanism `Realm` of `gss_mech`, from standard input
//! (`row_text`). The source and one client are kept from line to line; they are those of crate `two_ends`.
//!
//! Recorded calls and replies are met byte for byte, or have a byte changed. Others are made here by hand from
//! RFC 2203 and RFC 7861, and every expected answer is written down from those and `docs/formats.md`.
#![tactic(auto)]

mod callbacks;
mod changed;
mod exchanges;
mod forms;
mod laws;
mod mechanism;
mod replies;
mod source;
mod told;

use crate::told::tell;
use outcome::{Mem, NoMemory};
use row_text::{Rows, compare, number, word, words};
use std::alloc::Global;
use std::fmt::Write;
use std::io;
use two_ends::{Client, Server, Wrong};

/// The source, and the client of one of its contexts.
#[derive(Drop)]
struct GssRows {
    source: Server,
    client: Client,
}

impl GssRows {
    /// Tells the answer to a call, which may be one to the source or the client that are kept.
    fn told(&mut self, alloc: Global, words: &[&str], text: &mut String) -> Result<(), Wrong> {
        match word(words, 0) {
            "bare" => self.source = Server::new(alloc)?,
            "source" => self.source = source::made_at(alloc, words)?,
            "client" => self.client = exchanges::client(&self.source)?,
            "child" => self.client = exchanges::child(alloc, &mut self.source)?,
            "exchange" => {
                let ends = (&mut self.source, &mut self.client);
                return exchanges::exchange(alloc, ends, words, text);
            }
            _ => return one(alloc, &mut self.source, words, text),
        }
        Ok(tell(text, "made")?)
    }
}

/// Tells the answer to a call of the source, or to one that needs none.
fn one(alloc: Global, source: &mut Server, words: &[&str], text: &mut String) -> Result<(), Wrong> {
    match word(words, 0) {
        "turned_call" => changed::calls(alloc, words, text),
        "turned_reply" => changed::replies(alloc, words, text),
        "turned_init" => changed::inits(alloc, words, text),
        "reply" => changed::reply(alloc, words, text),
        "init_reply" => changed::init(alloc, words, text),
        "init_call" => exchanges::init_call(alloc, source, text),
        "served" => replies::served(alloc, number(words, 1), text),
        "garbage" => replies::garbage(alloc, number(words, 1), text),
        "callback" => callbacks::callback(alloc, words, text),
        "hmac"
        | "ends"
        | "tokens"
        | "read_init"
        | "init_result"
        | "read_init_result"
        | "create_args"
        | "create_result"
        | "read_create_result" => { Ok(alone(alloc, words, text)?) }
        _ => source::told(alloc, source, words, text),
    }
}

/// Tells the answer to a call of the mechanism, or of the forms of INIT and CREATE.
fn alone(alloc: Global, words: &[&str], text: &mut String) -> Mem<()> {
    match word(words, 0) {
        "hmac" => mechanism::hmac(alloc, words, text),
        "ends" => mechanism::ends(alloc, words, text),
        "tokens" => mechanism::tokens(alloc, words, text),
        "read_init" => forms::read_init_args(alloc, words, text),
        "init_result" => forms::init_result(alloc, words, text),
        "read_init_result" => forms::read_result(alloc, words, text),
        "create_args" => forms::create_args(alloc, words, text),
        "create_result" => forms::create_result(alloc, text),
        _ => forms::read_created(alloc, words, text),
    }
}

/// Tells what a call lacks.
fn tell_lack(told: Result<(), Wrong>, text: &mut String) -> Mem<()> {
    match told {
        Ok(()) => Ok(()),
        Err(Wrong::Lacks(what)) => {
            text.clear();
            write!(text, "lacks {what}")?;
            Ok(())
        }
        Err(Wrong::NoMemory) => Err(NoMemory),
    }
}

impl Rows for GssRows {
    fn answer(&mut self, alloc: Global, call: &str) -> Mem<String> {
        let mut text = String::new(alloc);
        let words = words(alloc, call)?;
        let told = self.told(alloc, &words, &mut text);
        tell_lack(told, &mut text)?;
        Ok(text)
    }
}

fn rows(alloc: Global) -> Result<GssRows, Wrong> {
    let source = Server::with_context(alloc, 0)?;
    let client = exchanges::client(&source)?;
    Ok(GssRows { source, client })
}

fn main(rt: HostRuntime) -> io::Result<()> {
    laws::hold();
    let Ok(mut rows) = rows(rt.alloc()) else {
        return println!(rt; "no source");
    };
    compare(&rt, &mut rows)
}
