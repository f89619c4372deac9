//! The clients, sessions and slots of a server (`sess_slots`), and its opens (`state_ids`).

use crate::fields::tell;
use crate::{opens, sessions, slots};
use outcome::Mem;
use row_text::{number, word};
use sess_slots::Sessions;
use state_ids::Opens;
use std::alloc::Global;

/// The tables of a server.
#[derive(Drop)]
pub struct ServerLines {
    sessions: Sessions,
    opens: Opens,
}

impl ServerLines {
    pub fn new(alloc: Global, boot: u32) -> Mem<ServerLines> {
        Ok(ServerLines {
            sessions: Sessions::new(alloc, boot)?,
            opens: Opens::new(alloc, boot)?,
        })
    }

    /// The answer to `boot BOOT`, which makes both tables anew, and to the calls of `src/slots.rt`, `src/sessions.rt` and
    /// `src/opens.rt`.
    pub fn answer(&mut self, alloc: Global, words: &[&str], text: &mut String) -> Mem<()> {
        match word(words, 0) {
            "boot" => self.boot(alloc, number(words, 1), text),
            "slot" => slots::slot(alloc, words, text),
            "begin" => slots::begin(alloc, &mut self.sessions, words, text),
            "open" | "open_taken" | "opened" | "check" | "close" | "holds" | "end" => {
                opens::answer(alloc, &mut self.opens, words, text)
            }
            _ => sessions::answer(&mut self.sessions, words, text),
        }
    }

    fn boot(&mut self, alloc: Global, boot: u32, text: &mut String) -> Mem<()> {
        *self = ServerLines::new(alloc, boot)?;
        tell(text, "made")
    }
}
