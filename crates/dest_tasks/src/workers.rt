//! All workers.

ghost use Rattle.std.specs.Prelude.{◌≡◌, ◌<◌, ◌≤◌, ◌+◌, replicate};
ghost use Rattle.std.specs.List.{list_any};
ghost use Rattle.dest_tasks.specs.Posts.{asks, confirms, followed, following, holds, is_idle, job_in, post_at, put_at, sets_up, sizes};
ghost use Rattle.dest_tasks.specs.declared.post.Post.TheVariants.{Idle};
ghost use Rattle.dest_tasks.specs.declared.workers.TheConstants.{WORKERS};

use crate::post::{Errand, Post};
use nfs_base::JobName;
use std::marker::Model;

/// How many workers there are.
pub const WORKERS: u32 = 8;

/// The workers of a destination, each in its place: its number less 1.
#[derive(Drop)]
pub struct Workers {
    posts: [Post; WORKERS as usize],
}

impl Model for Workers {
    ghost use Rattle.std.specs.Prelude.{◌≡◌, List, length};
    ghost use Rattle.dest_tasks.specs.declared.post.Post.{Post};
    ghost use Rattle.dest_tasks.specs.declared.workers.TheConstants.{WORKERS};

    ghost Value = { List Post };

    ghost view = { λ w. w.posts };

    ghost invariant = { λ w. length w.posts ≡ WORKERS };
}

impl Workers {
    /// All are idle.
    pub fn new() -> Workers
        ensures { result ≡ replicate WORKERS Idle }
    {
        Workers {
            posts: [
                Post::Idle,
                Post::Idle,
                Post::Idle,
                Post::Idle,
                Post::Idle,
                Post::Idle,
                Post::Idle,
                Post::Idle,
            ],
        }
    }

    pub fn is_idle(&self, place: u32) -> bool
        requires { place < WORKERS }
        ensures { result ≡ is_idle (post_at self.now place) }
    {
        self.posts[place as usize].is_idle()
    }

    /// What a worker awaits, and for which job.
    pub fn asks(&self, place: u32) -> Option<(JobName, Errand)>
        requires { place < WORKERS }
        ensures { result ≡ asks (post_at self.now place) }
    {
        self.posts[place as usize].asks()
    }

    /// Whether a worker holds a chunk.
    pub fn holds(&self, place: u32) -> bool
        requires { place < WORKERS }
        ensures { result ≡ holds (post_at self.now place) }
    {
        self.posts[place as usize].holds()
    }

    /// The job for which a worker is at something.
    pub fn job(&self, place: u32) -> Option<JobName>
        requires { place < WORKERS }
        ensures { result ≡ job_in (post_at self.now place) }
    {
        self.posts[place as usize].job()
    }

    /// Whether one awaits a step of the setup.
    pub fn sets_up(&self) -> bool
        ensures { result ≡ list_any sets_up self.now }
    {
        self.posts.iter().any(|post| post.sets_up())
    }

    /// Whether one awaits a job's context.
    pub fn confirms(&self, name: JobName) -> bool
        ensures { result ≡ list_any (confirms name) self.now }
    {
        self.posts.iter().any(|post| post.confirms(name))
    }

    /// Whether one awaits the size of a job's file.
    pub fn sizes(&self, name: JobName) -> bool
        ensures { result ≡ list_any (sizes name) self.now }
    {
        self.posts.iter().any(|post| post.sizes(name))
    }

    /// A worker is at something else from now on.
    pub fn put(&mut self, place: u32, post: Post)
        requires { place < WORKERS }
        ensures { self.new ≡ put_at place post self.old }
    {
        self.posts[place as usize] = post;
    }

    /// What a worker is at; from now on it is idle.
    pub fn take(&mut self, place: u32) -> Post
        requires { place < WORKERS }
        ensures post { result ≡ post_at self.old place }
        ensures idle { self.new ≡ put_at place Idle self.old }
    {
        std::mem::replace(&mut self.posts[place as usize], Post::Idle)
    }

    /// The workers whose answer isn't awaited any more are idle. `awaited` tells by place whether one is.
    pub fn follow(&mut self, awaited: &[bool; WORKERS as usize])
        ensures { self.new ≡ followed awaited.now WORKERS 0 self.old }
    {
        self.follow_from(awaited, WORKERS, 0);
    }

    #[tactic(auto, unfolding(crate::specs::Posts::followed))]
    fn follow_from(&mut self, awaited: &[bool; WORKERS as usize], left: u32, place: u32)
        requires { place + left ≤ WORKERS }
        ensures { self.new ≡ followed awaited.now left place self.old }
    {
        if left == 0 {
            return;
        }
        self.follow_one(awaited[place as usize], place);
        self.follow_from(awaited, left - 1, place + 1);
    }

    fn follow_one(&mut self, awaited: bool, place: u32)
        requires { place < WORKERS }
        ensures { self.new ≡ following awaited place self.old }
    {
        if !awaited && self.posts[place as usize].awaits() {
            self.posts[place as usize] = Post::Idle;
        }
    }
}
