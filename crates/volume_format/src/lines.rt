ghost use Rattle.std.specs.Prelude.{◌≡◌, IfOk};
ghost use Rattle.std.specs.String.{string_bytes};
ghost use Rattle.volume_format.specs.Lines.{formatted_text, not_volume_text, small_text};

use outcome::Mem;
use std::alloc::Global;

/// The line that is put where a disk was formatted.
pub(crate) fn formatted_line(alloc: Global, blocks: u64) -> Mem<String>
    ensures { IfOk result (λ text. string_bytes text ≡ formatted_text blocks) }
{
    Ok(format!(in alloc; "formatted {blocks}\n")?)
}

/// The line that is put where a disk has too few blocks.
pub fn small_line(alloc: Global, need: u64, have: u64) -> Mem<String>
    ensures { IfOk result (λ text. string_bytes text ≡ small_text need have) }
{
    Ok(format!(in alloc; "too small {need} {have}\n")?)
}

/// The line that is put where a disk doesn't hold a volume.
pub fn not_volume_line(alloc: Global, block: u64, at: u32) -> Mem<String>
    ensures { IfOk result (λ text. string_bytes text ≡ not_volume_text block at) }
{
    Ok(format!(in alloc; "not a volume {block} {at}\n")?)
}
