ghost use Rattle.std.specs.Prelude.{◌≡◌, ◌-◌, ◌≤◌, None, Some, IfSome, slice_set};
ghost use Rattle.copy_workers.specs.Desk.{IsSmall};
ghost use Rattle.core_desk.specs.Kept.{kept_for, nothing_kept};

use outbox::Outgoing;
use std::marker::Model;

// The calls that are to go out once more, one for each worker at most. Contracts see them by the workers' order.
#[derive(Drop)]
pub(crate) struct Kept {
    calls: [Option<Outgoing>; 8],
}

impl Model for Kept {
    ghost use Rattle.std.specs.Prelude.{List, Option, All, IfSome};
    ghost use Rattle.outbox.specs.declared.outgoing.Outgoing.{Outgoing};
    ghost use Rattle.copy_workers.specs.Desk.{IsSmall};

    ghost Value = { List (Option Outgoing) };

    ghost view = { λ k. k.calls };

    ghost invariant = { λ k. All (λ call. IfSome call IsSmall) k.calls };
}

impl Kept {
    // None.
    pub(crate) fn none() -> Kept
        ensures { result ≡ nothing_kept }
    {
        Kept {
            calls: [None, None, None, None, None, None, None, None],
        }
    }

    // Keeps a call for a worker, in place of an earlier one.
    pub(crate) fn put(&mut self, worker: u8, call: Outgoing)
        requires worker { 1 ≤ worker }
        requires workers { worker ≤ 8 }
        requires small { IsSmall call }
        ensures { self.new ≡ slice_set self.old (worker - 1) (Some call) }
    {
        self.calls[usize::from(worker) - 1] = Some(call);
    }

    // Takes the call out that is kept for a worker.
    pub(crate) fn take(&mut self, worker: u8) -> Option<Outgoing>
        requires worker { 1 ≤ worker }
        requires workers { worker ≤ 8 }
        ensures call { result ≡ kept_for worker self.old }
        ensures left { self.new ≡ slice_set self.old (worker - 1) None }
        ensures small { IfSome result IsSmall }
    {
        self.calls[usize::from(worker) - 1].take()
    }
}
