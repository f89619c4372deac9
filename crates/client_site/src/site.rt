//! What a client has at one server.

ghost use Rattle.std.specs.Prelude.{◌≡◌, ◌==◌, ◌<◌, [], ◌++◌, ◌∷◌, None, IfOk, OnErr, option_copied};
ghost use Rattle.std.specs.List.{AllByRecursion};
ghost use Rattle.mount.specs.declared.state.TheConstants.{PLACES};
ghost use Rattle.client_site.specs.Falling as falling;
ghost use Rattle.client_site.specs.Sites as sites;

use client_copies::Session;
use mount::{Mount, PLACES};
use nfs_base::{End, Handle, Side, StateId};
use outcome::Mem;
use session_client::Setup;
use std::alloc::Global;
use wire_xdr::Items;

/// A file that is open at a server (RFC 8881 section 18.16).
#[derive(Clone, Copy)]
pub struct OpenFile {
    /// Its number, which is its name there.
    pub file: u32,

    pub handle: Handle,

    /// The stateid of the open.
    pub id: StateId,
}

/// What a client has at one server.
#[derive(Drop)]
pub struct Site {
    /// The setup, and what is awaited of the server.
    pub mount: Mount,

    /// The files that are open there.
    pub files: Items<OpenFile>,

    /// The number of the context under which the server calls back, where there is one.
    pub back: Option<u32>,
}

impl Site {
    /// Nothing is set up yet at this server. RECLAIM_COMPLETE belongs to the setup.
    pub fn new(alloc: Global, side: Side) -> Site
        ensures { result ≡ sites.fresh_site side }
    {
        Site {
            mount: Mount::new(alloc, end_of(side), true),
            files: Items::new(alloc),
            back: None,
        }
    }

    /// The client's ID and the session, where all is set up.
    pub fn up(&self) -> Option<(u64, [u8; 16])>
        ensures { result ≡ sites.up_at self.now }
    {
        match self.mount.setup() {
            Setup::Up { client, session } => Some((client, session)),
            Setup::Down | Setup::Rooted { .. } | Setup::Registered { .. } | Setup::Joined { .. } =>
                None,
        }
    }

    /// The session, with its root context, where all is set up.
    pub fn session(&self) -> Option<Session>
        ensures { result ≡ sites.session_at self.now }
    {
        let (_, id) = self.up()?;
        let (root, _) = self.mount.root()?;
        Some(Session { id, root })
    }

    /// The session in which the server calls back under the context with this number, where it does.
    pub fn calls_back(&self, context: u32) -> Option<[u8; 16]>
        ensures { result ≡ sites.calls_back context self.now }
    {
        if !is_number(self.back, context) {
            return None;
        }
        match self.mount.setup() {
            Setup::Joined { session, .. } | Setup::Up { session, .. } => Some(session),
            Setup::Down | Setup::Rooted { .. } | Setup::Registered { .. } => None,
        }
    }

    /// The file with a number, where it is open.
    pub fn file(&self, file: u32) -> Option<OpenFile>
        ensures { result ≡ sites.file_at file self.now }
    {
        match find_file(self.files.as_slice(), file) {
            Some(opened_file) => Some(*opened_file),
            None => None,
        }
    }

    /// One more file is open. Without memory nothing changes.
    pub fn add_file(&mut self, opened_file: OpenFile) -> Mem<()>
        ensures ok { IfOk result (λ _. self.new ≡ sites.with_file opened_file self.old) }
        ensures err { OnErr result (self.new ≡ self.old) }
    {
        self.files.push(opened_file)
    }

    /// The setup goes down: what is awaited is given up, and nothing is open any more.
    pub fn go_down(&mut self, alloc: Global)
        ensures { self.new ≡ falling.gone_down self.old }
    {
        give_up(
            &mut self.mount,
            &[0, 1, 2, 3, 4, 5, 6, 7, 8, 9, 10, 11, 12, 13, 14, 15],
        );
        self.mount.fall();
        self.files = Items::new(alloc);
        self.back = None;
    }
}

fn is_number(back: Option<u32>, context: u32) -> bool
    ensures { result ≡ sites.is_number back context }
{
    match back {
        None => false,
        Some(number) => number == context,
    }
}

fn find_file(files: &[OpenFile], file: u32) -> Option<&OpenFile>
    ensures { option_copied result ≡ sites.open_in file files.now }
{
    files.iter().find(|opened_file| opened_file.file == file)
}

/// What is awaited at these places is given up.
fn give_up(mount: &mut Mount, places: &[u32])
    requires { AllByRecursion (λ place. place < PLACES) places.now }
    ensures { mount.new ≡ falling.given_up_at places.now mount.old }
{
    match places {
        [] => {}
        [place, more @ ..] => {
            mount.give_up(*place);
            give_up(mount, more);
        }
    }
}

/// A server as an end.
pub fn end_of(side: Side) -> End
    ensures { result ≡ sites.end_of side }
{
    match side {
        Side::Source => End::Source,
        Side::Dest => End::Dest,
    }
}
