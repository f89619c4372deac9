//! The letters by which ends and speakers go.

ghost use Rattle.std.specs.Prelude.{◌≡◌};
ghost use Rattle.wire_lines.specs.LineText.{end_text, speaker_text};

use nfs_base::End;

/// Who tells a note: one of the three ends, or a worker of the destination, of an answer that came to it.
#[derive(Clone, Copy, Debug, PartialEq, Eq)]
pub enum Speaker {
    Source,
    Dest,
    Client,
    Worker,
}

/// The letter of an end.
pub(crate) fn end_letter(end: End) -> &'static str
    ensures { result.now ≡ end_text end }
{
    match end {
        End::Source => "s",
        End::Dest => "d",
        End::Client => "c",
    }
}

/// The letter of who tells a note.
pub(crate) fn speaker_letter(speaker: Speaker) -> &'static str
    ensures { result.now ≡ speaker_text speaker }
{
    match speaker {
        Speaker::Source => "s",
        Speaker::Dest => "d",
        Speaker::Client => "c",
        Speaker::Worker => "w",
    }
}
