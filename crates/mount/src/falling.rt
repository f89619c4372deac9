//! How a mount begins again, and what is given up.

ghost use Rattle.std.specs.Prelude.{◌≡◌, ◌<◌};
ghost use Rattle.mount.specs.Falling.{tidied, fallen, given_up, forgotten, standing_after};
ghost use Rattle.mount.specs.State.{emptied};
ghost use Rattle.mount.specs.declared.state.TheConstants.{PLACES};

use crate::Mount;
use crate::contexts::{keep_used, root_name};
use crate::places::keep_slots;
use crate::state::{Awaiting, PLACES, Pending, Standing};

impl Mount {
    /// The mount begins again: INIT is next. Its contexts are gone, and what is awaited is given up, but for calls in
    /// slots: those still await their answers, under the contexts with which they were sent.
    pub fn fall(&mut self)
        ensures { self.new ≡ fallen self.old }
    {
        self.standing = Standing::Down { kept: None };
        self.children = [None; PLACES as usize];
        keep_slots(&mut self.places);
        self.tidy();
    }

    /// Gives up what is awaited at a place. An INIT is kept, since it goes out anew with its token.
    pub fn give_up(&mut self, place: u32)
        requires { place < PLACES }
        ensures { self.new ≡ given_up place self.old }
    {
        if let Some(awaiting) = self.places[place as usize].take() {
            self.keep_init(awaiting);
        }
    }

    fn keep_init(&mut self, awaiting: Awaiting)
        ensures { self.new ≡ record self.old { standing = standing_after self.old.standing awaiting.pending } }
    {
        match awaiting.pending {
            Pending::Init(init) => self.standing = Standing::Down { kept: Some(init) },
            Pending::Under { .. } => {}
        }
    }

    /// The child that is for this isn't for anything any more.
    pub fn forget_child(&mut self, child: u32)
        requires { child < PLACES }
        ensures { self.new ≡ forgotten child self.old }
    {
        self.children[child as usize] = None;
    }

    /// Takes out the contexts that nothing needs any more.
    pub(crate) fn tidy(&mut self)
        ensures { self.new ≡ tidied self.old }
    {
        let root = root_name(&self.standing);
        keep_used(&mut self.contexts, root, &self.children, &self.places);
    }

    /// Nothing is awaited at a place any more.
    pub(crate) fn empty(&mut self, place: u32)
        requires { place < PLACES }
        ensures { self.new ≡ emptied place self.old }
    {
        self.places[place as usize] = None;
    }
}
