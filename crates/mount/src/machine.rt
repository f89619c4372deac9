//! A mount, and how far it is.

ghost use Rattle.std.specs.Prelude.{◌≡◌, ◌<◌, false, true, None, is_some, option_map};
ghost use Rattle.mount.specs.State.{fresh, setup_in, kept_in, awaited_at, is_setting_up, child_name, root_context, has_numbers, HasNumbers};
ghost use Rattle.mount.specs.declared.state.TheConstants.{PLACES};

use crate::contexts::{context_of, root_name};
use crate::copying::none_awaited;
use crate::places::{at, sets_up};
use crate::state::{Awaiting, Context, PLACES, Standing};
use nfs_base::{End, Seal};
use session_client::Setup;
use std::alloc::Global;
use std::marker::Model;
use wire_xdr::Octets;

/// What a caller knows of one server, and awaits of it.
#[derive(Drop)]
pub struct Mount {
    pub(crate) server: End,
    pub(crate) reclaims: bool,
    pub(crate) calls: u32,
    pub(crate) contexts: Vec<Context>,
    pub(crate) standing: Standing,
    pub(crate) children: [Option<u32>; PLACES as usize],
    pub(crate) places: [Option<Awaiting>; PLACES as usize],
}

impl Model for Mount {
    ghost use Rattle.std.specs.Prelude.{◌≡◌, length};
    ghost use Rattle.mount.specs.State.{Mounted};
    ghost use Rattle.mount.specs.declared.state.TheConstants.{PLACES};

    ghost Value = { Mounted };

    ghost view = { λ m. record { server = m.server; reclaims = m.reclaims; calls = m.calls; contexts = m.contexts.items; standing = m.standing; children = m.children; places = m.places } };

    ghost invariant = { λ m. (length m.children ≡ PLACES) × (length m.places ≡ PLACES) };
}

/// At which place a call is to await its answer, by which xid it goes out, and in which second.
#[derive(Clone, Copy)]
pub struct SendAt {
    pub place: u32,
    pub xid: u32,
    pub now: u64,
}

/// A record that goes out, and its seal, where it has one.
#[derive(Drop)]
pub struct Sent {
    pub bytes: Octets,
    pub seal: Option<Seal>,
}

impl Mount {
    /// Nothing is set up yet. `reclaims` says whether RECLAIM_COMPLETE belongs to the setup.
    pub fn new(alloc: Global, server: End, reclaims: bool) -> Mount
        ensures { result ≡ fresh server reclaims }
    {
        Mount {
            server,
            reclaims,
            calls: 0,
            contexts: Vec::new(alloc),
            standing: Standing::Down { kept: None },
            children: [None; PLACES as usize],
            places: none_awaited(),
        }
    }

    /// How far the setup is, which says what is next.
    pub fn setup(&self) -> Setup
        ensures { result ≡ setup_in self.now.standing }
    {
        match &self.standing {
            Standing::Down { .. } => Setup::Down,
            Standing::Rooted(root) => root.setup,
        }
    }

    /// Whether an INIT is kept, which goes out anew with its token: no nonce is to be drawn.
    pub fn keeps_init(&self) -> bool
        ensures { result ≡ is_some (kept_in self.now.standing) }
    {
        match &self.standing {
            Standing::Down { kept } => kept.is_some(),
            Standing::Rooted(_) => false,
        }
    }

    /// Whether an answer to a call of the setup is awaited.
    pub fn is_setting_up(&self) -> bool
        ensures { result ≡ is_setting_up self.now }
    {
        self.places.iter().any(|place| sets_up(place))
    }

    /// The xid of the last call that was sent, 0 before the first.
    pub fn calls(&self) -> u32
        ensures { result ≡ self.now.calls }
    {
        self.calls
    }

    /// Whether an answer is awaited at a place.
    pub fn awaits(&self, place: u32) -> bool
        requires { place < PLACES }
        ensures awaits { result ≡ is_some (awaited_at self.now place) }
        ensures free { result ≡ false → awaited_at self.now place ≡ None }
    {
        at(&self.places, place).is_some()
    }

    /// The second in which the call was last sent whose answer is awaited at a place.
    pub fn sent_at(&self, place: u32) -> Option<u64>
        requires { place < PLACES }
        ensures { result ≡ option_map (λ a. a.sent_at) (awaited_at self.now place) }
    {
        match at(&self.places, place) {
            None => None,
            Some(awaiting) => Some(awaiting.sent_at),
        }
    }

    /// Whether a slot has a number left for a new call.
    pub fn has_numbers(&self, slot: u32) -> bool
        requires { slot < PLACES }
        ensures is { result ≡ has_numbers self.now.standing slot }
        ensures left { result ≡ true → HasNumbers self.now.standing slot }
    {
        match &self.standing {
            Standing::Down { .. } => true,
            Standing::Rooted(root) => root.numbers.next(slot) < u32::MAX,
        }
    }

    /// The handle of the root's context, and its key.
    pub fn root(&self) -> Option<([u8; 8], [u8; 32])>
        ensures { result ≡ option_map (λ c. (c.root, c.key)) (root_context self.now) }
    {
        let name = root_name(&self.standing)?;
        let context = context_of(self.contexts.as_slice(), name)?;
        let handle = context.root;
        let key = context.key;
        Some((handle, key))
    }

    /// Whether the child is there that is for this.
    pub fn has_child(&self, child: u32) -> bool
        requires { child < PLACES }
        ensures { result ≡ is_some (child_name self.now child) }
    {
        self.children[child as usize].is_some()
    }
}
