//! The calls without a result.

ghost use Rattle.std.specs.Prelude.{◌≡◌, [], IfOk, OnOk, OnErr};
ghost use Rattle.rpc_calls.specs.Answers.{result_reply};
ghost use Rattle.rpc_calls.specs.Judging.{HasSpelling, IsThere};
ghost use Rattle.session_server.specs.Steps.{empty_call, empty_leaves};

use gss_ctx::Contexts;
use gss_mech::Mechanism;
use outbox::{CallLabel, Label};
use outcome::Mem;
use rpc_calls::{Call, answer_destroy, answer_null};
use std::alloc::Global;
use wire_xdr::Octets;

#[derive(Clone, Copy)]
pub(crate) enum Empty {
    Null,
    Destroy,
}

impl Empty {
    pub(crate) fn answer<C: Drop, M: Mechanism>(
        self,
        contexts: &mut Contexts<C>,
        alloc: Global,
        call: &Call,
        second: u64,
        mech: &M,
    ) -> Mem<Octets>
        requires head { HasSpelling call.now }
        requires there { IsThere contexts.old call.now }
        ensures reply { IfOk result (λ bytes. bytes ≡ result_reply M.mic_of contexts.old call.now []) }
        ensures table { OnOk result (contexts.new ≡ empty_leaves self second call.now contexts.old) }
        ensures err { OnErr result (contexts.new ≡ contexts.old) }
    {
        match self {
            Empty::Null => answer_null(contexts, alloc, call, second, mech),
            Empty::Destroy => answer_destroy(contexts, alloc, call, second, mech),
        }
    }

    /// What the reply is called.
    pub(crate) fn label(self) -> Label
        ensures { result ≡ Label.Reply (empty_call self) 0 }
    {
        let to = match self {
            Empty::Null => CallLabel::Null,
            Empty::Destroy => CallLabel::Destroy,
        };
        Label::Reply { to, status: 0 }
    }
}
