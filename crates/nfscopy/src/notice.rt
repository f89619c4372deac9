ghost use Rattle.std.specs.Prelude.{◌≡◌, ◌≤◌, IfOk};
ghost use Rattle.std.specs.String.{string_bytes};
ghost use Rattle.nfscopy.specs.Notice.{usage_text, too_much_text, bad_line_text, mistaken_text};

use outcome::Mem;
use std::alloc::Global;
use wire_lines::Line;
use wire_machine::Mistake;
use wire_schedule::BadLine;

/// The line that is put where the words are of no command.
pub fn usage_line() -> &'static [u8]
    ensures { result.now ≡ usage_text }
{
    b"usage\n"
}

/// The line that is put where the input passes its limit.
pub fn too_much_line() -> &'static [u8]
    ensures { result.now ≡ too_much_text }
{
    b"too much\n"
}

/// The same line, as a text of its own.
pub fn too_much(alloc: Global) -> Mem<String>
    ensures { IfOk result (λ text. string_bytes text ≡ too_much_text) }
{
    Ok(format!(in alloc; "too much\n")?)
}

/// The line that is put where the input is no schedule, or the records have too many bytes from a line on.
pub fn bad_line(alloc: Global, bad: BadLine) -> Mem<String>
    ensures { IfOk result (λ text. string_bytes text ≡ bad_line_text bad.line) }
{
    Ok(format!(in alloc; "{bad}\n")?)
}

/// The line that is put where a record was taken by mistake.
pub fn mistaken_line(alloc: Global, mistake: Mistake) -> Mem<String>
    ensures { IfOk result (λ text. string_bytes text ≡ mistaken_text mistake) }
{
    let Mistake { accepted, sealed } = mistake;
    let mut text = String::new(alloc);
    Line::Mistaken { accepted, sealed }.push_to(&mut text)?;
    Ok(text)
}
