//! The operations of a compound behind its SEQUENCE, in order.

ghost use Rattle.std.specs.Prelude.{◌≡◌, ◌+◌, ◌-◌, ◌^◌, ◌<◌, ◌≤◌, length, map};
ghost use Rattle.file_server.specs.Answering.{Ready};
ghost use Rattle.nfs_base.specs.declared.limits.TheConstants.{MOST_OPERATIONS};
ghost use Rattle.nfs_compound.specs.Walk.{next_number};
ghost use Rattle.server_volume.specs.Moments.{Counted};
ghost use Rattle.server_volume.specs.Store.{seat_of};
ghost use Rattle.compound_server.specs.Course.{course_of};
ghost use Rattle.compound_server.specs.Preparing.{op_of, AreSuited};
ghost use Rattle.compound_server.specs.State.{AreCounted};
ghost use Rattle.compound_server.specs.Walking.{walk, Walks};

use crate::preparing::{Prepared, PreparedOps};
use crate::refusing::tail_refusal;
use crate::server::Server;
use crate::serving::Serving;
use disk_model::Disk;
use file_server::{Caller, Progress};
use nfs_base::Status;
use nfs_compound::Tail;
use std::collections::VecDeque;

/// Operations that were evaluated: the status of the last one, and how many results there are.
#[derive(Clone, Copy, PartialEq, Eq)]
pub struct Evaluated {
    pub status: Status,
    pub count: u32,
}

impl<D: Disk, X> Server<D, X> {
    /// Evaluates the operations behind a SEQUENCE, in order, up to the first status other than 0, and answers the one
    /// behind them that can't be read or isn't served. Their results stand on the page behind those before. `count` is
    /// how many results there are already.
    pub fn evaluate<C>(
        &mut self,
        caller: &Caller,
        carry: &Option<C>,
        ops: PreparedOps<X::Room>,
        tail: Tail,
        count: u32,
        p: &mut Progress,
    ) -> Evaluated
    where
        X: Serving<C>,
        requires ready { Ready p.old (length ops + 1) }
        requires suited { AreSuited X.suits carry.now ops }
        requires few { length ops + count ≤ MOST_OPERATIONS }
        requires opens { self.old.files.opens.made + length ops < 2 ^ 32 }
        requires given { X.given self.old.files.extra + length ops < 2 ^ 32 }
        ensures walks { D.Told → Walks (λ choice. walk (record { gate = X.gated; serve = X.serves }) choice caller.now carry.now tail (map op_of ops) (course_of D.size self.old p.old)) p.old.page.bytes count (course_of D.size self.new p.new) p.new.page.bytes result.status.number result.count }
        ensures room { p.new.page.room ≡ p.old.page.room }
        ensures fits { length p.new.page.bytes ≤ p.old.page.room }
        ensures ran { Counted D.Told (seat_of D.size D.fuse D.timeline D.faults self.old.files.volume) (seat_of D.size D.fuse D.timeline D.faults self.new.files.volume) p.old.used p.new.used }
        ensures counted { AreCounted X.given X.landed (length ops) self.old self.new }
    {
        let mut rest = ops.into_deque();
        let mut count = count;
        'operations: while let Some(one) = rest.pop_front() {
            let next = next_number(&rest);
            let status = self.perform(caller, carry, next, one, p);
            count += 1;
            if status.number != 0 {
                return Evaluated { status, count };
            }
        }
        match tail_refusal(tail) {
            None => Evaluated {
                status: Status::OK,
                count,
            },
            Some(refusal) => Evaluated {
                status: p.refuse(refusal.op, refusal.status),
                count: count + 1,
            },
        }
    }
}

/// The number of the operation that stands first.
fn next_number<R>(ops: &VecDeque<Prepared<R>>) -> Option<u32>
    ensures { result ≡ next_number (map op_of ops.now.items) }
{
    Some(ops.front()?.number())
}
