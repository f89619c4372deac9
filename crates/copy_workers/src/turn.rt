ghost use Rattle.std.specs.Prelude.{◌≡◌};
ghost use Rattle.copy_workers.specs.Turn.{may_give_work, turn_of};

use outbox::{Note, Outbox};

// How a worker's turn went.
#[derive(Clone, Copy)]
pub(crate) enum Turn {
    /// It took, told or sent something.
    Worked,

    /// There was nothing to do, or the chunk that the worker holds has to wait.
    Empty,

    /// There was something to do, but a draw failed or memory was refused.
    Wanting,
}

// How a turn went that gave this, with a record that came or without one.
pub(crate) fn turn_of(reply: bool, out: &Outbox) -> Turn
    ensures { result ≡ turn_of reply out.now }
{
    let may_give = may_give_work(reply, out.notes.as_slice());
    match (out.sent.as_slice(), may_give, out.undrawn) {
        ([], false, false) => Turn::Empty,
        ([], false, true) => Turn::Wanting,
        _ => Turn::Worked,
    }
}

// Whether a turn may have given others work. A chunk that has to wait gives none: a worker that said so would wake itself, and each
// other one that holds a chunk, and none of them would ever rest.
pub(crate) fn may_give_work(reply: bool, notes: &[Note]) -> bool
    ensures { result ≡ may_give_work reply notes.now }
{
    match notes {
        [] => reply,
        [Note::Held { .. }] => false,
        _ => true,
    }
}
