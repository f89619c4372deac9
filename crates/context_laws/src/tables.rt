ghost use Rattle.std.specs.Prelude.{◌≡◌, ◌+◌, ℕ};
ghost use Rattle.gss_ctx.specs.Table.{ContextTable, with_new};
ghost use Rattle.gss_ctx.specs.declared.context.Context.{Context};
ghost use Rattle.rpc_calls.specs.Answers.{counted, ended};
ghost use Rattle.rpc_calls.specs.declared.call.Call.{Call};
ghost use Rattle.context_laws.specs.View.{root_number, AreNumbered, Follows, IsNewIn};

/// Contexts keep their roots while they are there, and their numbers stay their own: whatever a call is answered, when it
/// ends its context, and when one is made, which has the next number and the root that it is to have.
pub fn contexts_follow<P>()
    ensures counted { (now : ℕ) (call : Call) (table : ContextTable P) → AreNumbered table.made table.entries
        → Follows table (counted now call table) }
    ensures ended { (now : ℕ) (call : Call) (table : ContextTable P) → AreNumbered table.made table.entries
        → Follows table (ended now call table) }
    ensures new { (now : ℕ) (context : Context P) (table : ContextTable P) → AreNumbered table.made table.entries
        → Follows table (with_new now context table) }
    ensures new_is { (now : ℕ) (context : Context P) (table : ContextTable P) → AreNumbered table.made table.entries
        → IsNewIn table (with_new now context table) (table.made + 1) (root_number context.parent (table.made + 1)) }
{}
