//! Which replies answer a call.

ghost use Rattle.std.specs.Prelude.{◌≡◌};
ghost use Rattle.session_calls.specs.Answers as answers;

use file_ops::{ATTR_CHANGE, ATTR_SIZE, Attributes, FileArg, FileRes};
use nfs_base::{Answer, Status};
use nfs_compound::{Op, Reply, Res};

/// The bits of the change attribute and of the size.
pub(crate) const ATTRS_CHANGE_AND_SIZE: u32 = ATTR_CHANGE | ATTR_SIZE;

/// Whether a reply answers a call of these operations, as `specs/Answers.antt` has it.
#[tactic(auto, unfolding(crate::specs::Answers::is_answer))]
pub fn is_answer(ops: &[Op], reply: &Reply) -> bool
    ensures { result ≡ answers.is_answer ops.now reply.now }
{
    is_told(ops, reply.status, reply.results.as_slice())
}

fn is_told(ops: &[Op], status: Status, results: &[Res]) -> bool
    ensures { result ≡ answers.is_told ops.now status.number results.now }
{
    match results {
        [] => status.number != 0,
        [_, ..] => go_on(ops, status, results),
    }
}

/// Whether these are the results of the operations, behind others that were told with status 0.
fn go_on(ops: &[Op], status: Status, results: &[Res]) -> bool
    ensures { result ≡ answers.go_on ops.now status.number results.now }
{
    match ops {
        [] => match results {
            [] => status.number == 0,
            [_, ..] => false,
        },
        [op, others @ ..] => match results {
            [] => false,
            [res, more @ ..] => {
                if !is_result(op, res) {
                    return false;
                }
                let told = res.status();
                if told.number == 0 {
                    return go_on(others, status, more);
                }
                more.is_empty() && status.number == told.number
            }
        },
    }
}

/// Whether a result is of an operation, with the attributes that this asks for.
fn is_result(op: &Op, res: &Res) -> bool
    ensures { result ≡ answers.is_result op.now res.now }
{
    res.number() == op.number() && has_attributes(op, res)
}

fn has_attributes(op: &Op, res: &Res) -> bool
    ensures { result ≡ answers.has_attributes op.now res.now }
{
    match op {
        Op::Copy(_) => true,
        Op::File(FileArg::GetAttr(asked)) => res_tells(asked.as_slice(), res),
        Op::File(_) => true,
    }
}

fn res_tells(asked: &[u32], res: &Res) -> bool
    ensures { result ≡ answers.res_tells asked.now res.now }
{
    match res {
        Res::File(FileRes::GetAttr(Answer::Done(told))) => are_told(asked, told),
        _ => true,
    }
}

/// Whether these are the attributes that were asked for, with their bytes.
fn are_told(asked: &[u32], told: &Attributes) -> bool
    ensures { result ≡ answers.are_told asked.now told.now.mask told.now.values }
{
    match asked {
        [asked] => match told.mask.as_slice() {
            [mask] => *mask == *asked && told.values.len() == values_size(*asked),
            _ => false,
        },
        _ => false,
    }
}

/// How many bytes the values have of what these ends ask for.
fn values_size(mask: u32) -> usize
    ensures { result ≡ answers.values_size mask }
{
    match mask {
        ATTR_CHANGE => 8,
        ATTRS_CHANGE_AND_SIZE => 16,
        _ => 0,
    }
}
