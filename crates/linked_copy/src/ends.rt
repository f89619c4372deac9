//! How a copy over a net ends.

ghost use Rattle.std.specs.Prelude.{◌≡◌};
ghost use Rattle.linked_copy.specs.Lines as spec;

use single_copy::Copied;

/// How a copy over a net ends.
#[derive(Clone, Copy, PartialEq, Eq)]
pub enum CopyEnd {
    /// It is stable at the destination: `stable` was put, and then `exact` or `unsure`.
    Stable,

    /// It failed: `failed STATUS` was put.
    Failed,

    /// A call of a link failed before the copy's last report: `stable` was put where it had been reported so.
    LinkFault,

    /// A draw failed before the copy's last report. Nothing was put.
    DrawFault,

    /// A server couldn't be dialed. Nothing was put, to a link neither.
    DialFault,

    /// The sink failed.
    WriteFault,

    /// Want of memory.
    NoMemory,
}

/// The end that goes with what became of a copy, where all lines are put.
pub(crate) fn end_of(copied: Copied) -> CopyEnd
    ensures { result ≡ spec.end_of copied }
{
    match copied {
        Copied::Stable { exact: _ } => CopyEnd::Stable,
        Copied::Failed(_) => CopyEnd::Failed,
        Copied::LinkFault { stable: _ } => CopyEnd::LinkFault,
        Copied::DrawFault => CopyEnd::DrawFault,
    }
}
