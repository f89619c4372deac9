//! What is played in a case.

use outcome::Mem;
use std::alloc::Global;

/// Which core a case is for.
#[derive(Clone, Copy)]
pub enum Core {
    Source,
    Dest,
    Client,
}

impl Core {
    /// The core that a word names.
    pub fn named(word: &str) -> Option<Core> {
        match word {
            "source" => Some(Core::Source),
            "dest" => Some(Core::Dest),
            "client" => Some(Core::Client),
            _ => None,
        }
    }
}

/// A core as the lines of cases drive it.
pub trait Player: Drop {
    /// This core of a new case, by the words of its first line. None where there can't be one.
    fn begin(alloc: Global, core: Core, words: &[&str]) -> Mem<Option<Self>>;

    /// Makes the step that an event's words say, adds the lines of its outcome, and tells whether the core makes such a step.
    fn event(&mut self, alloc: Global, words: &[&str], text: &mut String) -> Mem<bool>;

    /// Adds what the core holds in the end, as the line with these words is to say it.
    fn held(&mut self, words: &[&str], text: &mut String) -> Mem<()>;
}

/// Puts the core of a new case in the place of the last one's.
pub fn begin<P: Player>(
    player: &mut Option<P>,
    alloc: Global,
    core: Core,
    words: &[&str],
) -> Mem<()> {
    *player = P::begin(alloc, core, words)?;
    Ok(())
}

/// Has the core make an event's step, where there is a core.
pub fn event<P: Player>(
    player: &mut Option<P>,
    alloc: Global,
    words: &[&str],
    text: &mut String,
) -> Mem<bool> {
    match player {
        Some(player) => player.event(alloc, words, text),
        None => Ok(false),
    }
}

/// Has the core say what it holds, where there is a core.
pub fn held<P: Player>(player: &mut Option<P>, words: &[&str], text: &mut String) -> Mem<()> {
    match player {
        Some(player) => player.held(words, text),
        None => Ok(text.push_str("no core\n")?),
    }
}
