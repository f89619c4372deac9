//! What is told of jobs, by their seats.

ghost use Rattle.std.specs.Prelude.{◌≡◌, ◌<◌, length, IfOk};
ghost use Rattle.dest_back.specs.Callbacks.{no_callbacks, post_at, posted, sent_in};
ghost use Rattle.dest_tasks.specs.declared.seats.TheConstants.{SEATS};

use crate::compound::Ended;
use crate::line::{Line, copy_lines};
use dest_tasks::SEATS;
use gss_ctx::Awaited;
use nfs_base::Seal;
use outcome::Mem;
use std::alloc::Global;
use std::marker::Model;

/// Who is told how a job ends: the session on which its COPY came, and the key of the root context under which that was.
#[derive(Clone, Copy)]
pub struct Party {
    pub session: u32,
    pub key: [u8; 32],
}

/// A call that awaits its answer.
#[derive(Clone, Copy)]
pub struct Awaiting {
    /// The second in which it was last sent.
    pub sent_at: u64,

    /// What it tells, and its number in its slot.
    pub told: Ended,
    pub number: u32,

    /// The key of its context, the seal under which it was last sent, and what is awaited of the reply.
    pub key: [u8; 32],
    pub seal: Seal,
    pub awaited: Awaited,
}

/// What is at a seat: the job with this number, who is told how it ends, and the call that tells it.
#[derive(Clone, Copy)]
pub struct Post {
    pub job: u32,
    pub party: Party,
    pub awaiting: Option<Awaiting>,
}

/// What a destination tells its clients.
#[derive(Drop)]
pub struct Callbacks {
    pub(crate) calls: u32,
    pub(crate) posts: [Option<Post>; SEATS as usize],
    pub(crate) lines: Vec<Line>,
}

impl Model for Callbacks {
    ghost use Rattle.std.specs.Prelude.{◌≡◌, length};
    ghost use Rattle.dest_back.specs.Callbacks.{CallbackTable};
    ghost use Rattle.dest_tasks.specs.declared.seats.TheConstants.{SEATS};

    ghost Value = { CallbackTable };

    ghost view = { λ c. record { calls = c.calls; posts = c.posts; lines = c.lines.items } };

    ghost invariant = { λ c. length c.posts ≡ SEATS };
}

impl Callbacks {
    /// Nothing is to be told.
    pub fn new(alloc: Global) -> Callbacks
        ensures { result ≡ no_callbacks }
    {
        Callbacks {
            calls: 0,
            posts: [None; SEATS as usize],
            lines: Vec::new(alloc),
        }
    }

    /// The same once more, for a step that may be given up: only one of the two is to go on.
    pub fn copy(&self, alloc: Global) -> Mem<Callbacks>
        ensures { IfOk result (λ copy. copy ≡ self.now) }
    {
        let lines = copy_lines(alloc, self.lines.as_slice())?;
        let mut posts = [None; SEATS as usize];
        copy_posts(&self.posts, &mut posts);
        Ok(Callbacks {
            calls: self.calls,
            posts,
            lines,
        })
    }

    /// The xid of the last call, 0 before the first.
    pub fn calls(&self) -> u32
        ensures { result ≡ self.now.calls }
    {
        self.calls
    }

    /// The job with this number sits at a seat from now on, and this party is told how it ends.
    pub fn seat(&mut self, seat: u32, job: u32, party: Party)
        requires { seat < SEATS }
        ensures { self.new ≡ posted seat job party self.old }
    {
        self.posts[seat as usize] = Some(Post {
            job,
            party,
            awaiting: None,
        });
    }

    /// The second in which the call was last sent that awaits its answer at a seat.
    pub fn sent_at(&self, seat: u32) -> Option<u64>
        requires { seat < SEATS }
        ensures { result ≡ sent_in (post_at self.now seat) }
    {
        sent_in(&self.posts[seat as usize])
    }
}

fn copy_posts(posts: &[Option<Post>], copies: &mut [Option<Post>])
    requires { length copies.old ≡ length posts.now }
    ensures { copies.new ≡ posts.now }
{
    for seat in 0..posts.len() {
        copies[seat] = copy_post(&posts[seat]);
    }
}

fn copy_post(post: &Option<Post>) -> Option<Post>
    ensures { result ≡ post.now }
{
    match post {
        None => None,
        Some(post) => {
            let party = post.party;
            Some(Post {
                job: post.job,
                party,
                awaiting: awaiting_in(post),
            })
        }
    }
}

/// The call that awaits its answer.
pub(crate) fn awaiting_in(post: &Post) -> Option<Awaiting>
    ensures { result ≡ post.now.awaiting }
{
    match &post.awaiting {
        None => None,
        Some(awaiting) => {
            let told = awaiting.told;
            let key = awaiting.key;
            Some(Awaiting {
                sent_at: awaiting.sent_at,
                told,
                number: awaiting.number,
                key,
                seal: awaiting.seal,
                awaited: awaiting.awaited,
            })
        }
    }
}

fn sent_in(post: &Option<Post>) -> Option<u64>
    ensures { result ≡ sent_in post.now }
{
    match post {
        None => None,
        Some(post) => match &post.awaiting {
            None => None,
            Some(awaiting) => Some(awaiting.sent_at),
        },
    }
}
