ghost use Rattle.std.specs.Prelude.{◌≡◌, ◌<◌, [], false, IfOk, count_by, filter, vec_capacity};
ghost use Rattle.std.specs.Option.{option_copied};
ghost use Rattle.gss_ctx.specs.Table.{ContextTable, IsNumbered, AreDistinct, handle_of, boot_named, number_named, is_live, is_full, entry_of, context_of, lower_live, lowest_above, is_kept, destroyed, with_new};

use crate::context::{Context, Entry};
use crate::window::Window;
use nfs_base::{CONTEXT_IDLE, End, MOST_CONTEXTS, Seal};
use outcome::Mem;
use std::alloc::Global;
use std::marker::Model;

/// The contexts of an acceptor: of one opening of a server, or of the client for its callbacks. A child
/// carries a `P`. Contracts see them as a `ContextTable`. A context is live for 3,600 seconds after its last use.
/// All room for contexts is taken when they are made: later calls want memory for what they read, copy and answer
/// alone.
#[derive(Drop)]
pub struct Contexts<P> {
    pub(crate) owner: End,
    pub(crate) boot: u32,
    pub(crate) made: u32,
    pub(crate) entries: Vec<Entry<P>>,
}

impl<P> Model for Contexts<P> {
    ghost use Rattle.std.specs.Prelude.{vec_capacity};
    ghost use Rattle.gss_ctx.specs.Table.{ContextTable, IsKept};

    ghost Value = { ContextTable P };

    ghost view = { λ c. record { owner = c.owner; boot = c.boot; made = c.made; entries = c.entries.items } };

    ghost invariant = { λ c. IsKept c.made c.entries.items (vec_capacity c.entries) };
}

impl<P> Contexts<P> {
    /// No contexts yet, of this end in this boot.
    pub fn new(alloc: Global, owner: End, boot: u32) -> Mem<Contexts<P>>
        ensures { IfOk result (λ contexts. contexts ≡ record { owner = owner; boot = boot; made = 0; entries = [] }) }
    {
        Ok(Contexts {
            owner,
            boot,
            made: 0,
            entries: Vec::with_capacity(alloc, MOST_CONTEXTS)?,
        })
    }

    /// How many numbers were given out. No context has a higher one, and no two have one number.
    pub fn made(&self) -> u32
        ensures made { result ≡ self.now.made }
        ensures given { IsNumbered self.now }
        ensures distinct { AreDistinct self.now.entries }
    {
        self.made
    }

    /// The seal of a sequence number under a context of these.
    pub fn seal(&self, number: u32, seq: u32) -> Seal
        ensures { result ≡ record { owner = self.now.owner; boot = self.now.boot; number = number; seq = seq } }
    {
        Seal {
            owner: self.owner,
            boot: self.boot,
            number,
            seq,
        }
    }

    /// The handle of the context of a number.
    pub fn handle(&self, number: u32) -> [u8; 8]
        ensures { result ≡ handle_of self.now.boot number }
    {
        handle_of(self.boot, number)
    }

    /// The context of a number. None exactly where none has it.
    pub fn context(&self, number: u32) -> Option<&Context<P>>
        ensures { option_copied result ≡ context_of number self.now.entries }
    {
        Some(&entry_of(self.entries.as_slice(), number)?.context)
    }

    /// The contexts, lent, those among them that are dead and not yet taken out.
    pub fn entries(&self) -> &[Entry<P>]
        ensures { result.now ≡ self.now.entries }
    {
        self.entries.as_slice()
    }

    /// The lowest number of a live context above `after`. None exactly where no live context is above it.
    pub fn next(&self, after: u32, now: u64) -> Option<u32>
        ensures { result ≡ lowest_above after now self.now.entries }
    {
        lowest_above(self.entries.as_slice(), after, now)
    }

    /// Whether 256 live contexts are held.
    pub(crate) fn is_full(&self, now: u64) -> bool
        ensures { result ≡ is_full now self.now.entries }
    {
        live_count(self.entries.as_slice(), now) >= MOST_CONTEXTS
    }
}

impl<P: Drop> Contexts<P> {
    /// Ends a context and its children.
    pub fn destroy(&mut self, number: u32)
        ensures { self.new ≡ destroyed number self.old }
    {
        keep_others(&mut self.entries, number);
    }

    /// Takes out the dead contexts, and adds one under the next number. It takes no memory.
    pub(crate) fn insert(&mut self, context: Context<P>, now: u64)
        requires made { self.old.made < 4294967295 }
        requires room { is_full now self.old.entries ≡ false }
        ensures { self.new ≡ with_new now context self.old }
    {
        keep_live(&mut self.entries, now);
        self.entries
            .push(Entry {
                number: self.made + 1,
                context,
                window: Window::new(),
            })
            .unwrap();
        self.made += 1;
    }
}

/// The context of a number.
pub(crate) fn entry_of<P>(entries: &[Entry<P>], number: u32) -> Option<&Entry<P>>
    ensures { option_copied result ≡ entry_of number entries.now }
{
    entries.iter().find(|e| e.number == number)
}

/// How many contexts are live.
fn live_count<P>(entries: &[Entry<P>], now: u64) -> usize
    ensures { result ≡ count_by (is_live now) entries.now }
{
    entries.iter().filter(|e| is_live(e, now)).count()
}

/// The lowest number of a live context above another number.
fn lowest_above<P>(entries: &[Entry<P>], after: u32, now: u64) -> Option<u32>
    ensures { result ≡ lowest_above after now entries.now }
{
    entries
        .iter()
        .fold(None, |lowest, e| lower_live(lowest, e, after, now))
}

/// The lower of a number and that of a context, where this is live and above `after`.
fn lower_live<P>(lowest: Option<u32>, entry: &Entry<P>, after: u32, now: u64) -> Option<u32>
    ensures { result ≡ lower_live after now lowest entry.now }
{
    if entry.number <= after || !is_live(entry, now) {
        return lowest;
    }
    match lowest {
        Some(number) => Some(number.min(entry.number)),
        None => Some(entry.number),
    }
}

/// Whether a context was used in the last 3,600 seconds.
pub fn is_live<P>(entry: &Entry<P>, now: u64) -> bool
    ensures { result ≡ is_live now entry.now }
{
    now.saturating_sub(entry.context.used) < CONTEXT_IDLE
}

/// Takes out the dead contexts.
fn keep_live<P: Drop>(entries: &mut Vec<Entry<P>>, now: u64)
    ensures items { entries.new.items ≡ filter (is_live now) entries.old.items }
    ensures capacity { vec_capacity entries.new ≡ vec_capacity entries.old }
{
    entries.retain(|entry| is_live(entry, now));
}

/// Takes out a context and its children.
fn keep_others<P: Drop>(entries: &mut Vec<Entry<P>>, number: u32)
    ensures items { entries.new.items ≡ filter (is_kept number) entries.old.items }
    ensures capacity { vec_capacity entries.new ≡ vec_capacity entries.old }
{
    entries.retain(|entry| is_kept(entry, number));
}

/// Whether a context stays where another and its children end.
fn is_kept<P>(entry: &Entry<P>, number: u32) -> bool
    ensures { result ≡ is_kept number entry.now }
{
    match entry.context.parent {
        Some(parent) => entry.number != number && parent != number,
        None => entry.number != number,
    }
}

/// The handle of a context: the boot and the number.
#[tactic(auto, unfolding(wire_xdr::specs::Words::word_bytes))]
pub fn handle_of(boot: u32, number: u32) -> [u8; 8]
    ensures { result ≡ handle_of boot number }
{
    let [a, b, c, d] = boot.to_be_bytes();
    let [e, f, g, h] = number.to_be_bytes();
    [a, b, c, d, e, f, g, h]
}

/// The boot and the number that a handle names.
pub fn named_by(handle: &[u8; 8]) -> (u32, u32)
    ensures boot { result.0 ≡ boot_named handle.now }
    ensures number { result.1 ≡ number_named handle.now }
{
    let [a, b, c, d, e, f, g, h] = *handle;
    (
        u32::from_be_bytes([a, b, c, d]),
        u32::from_be_bytes([e, f, g, h]),
    )
}
