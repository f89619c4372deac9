//! A fuse by itself.

use crate::told::tell_shown;
use disk_model::Fuse;
use outcome::Mem;
use row_text::{number, word};

/// `unset TIMES`, `set CALLS TIMES`, `burning CALLS TIMES` and `out CALLS TIMES`: a fuse that burns so often, and whether it is
/// out then.
pub fn burnt(words: &[&str], text: &mut String) -> Mem<()> {
    let (first, second) = (number(words, 1), number(words, 2));
    let fuse = match word(words, 0) {
        "unset" => burn(Fuse::Unset, first),
        "set" => burn(Fuse::Unset.set(u64::from(first)), second),
        "burning" => burn(Fuse::Burning(u64::from(first)), second),
        _ => burn(Fuse::Out.set(u64::from(first)), second),
    };
    tell_shown(text, &fuse)?;
    text.push_str(if fuse.is_out() { " true" } else { " false" })?;
    Ok(())
}

fn burn(mut fuse: Fuse, times: u32) -> Fuse {
    for _ in 0..times {
        fuse = fuse.burn();
    }
    fuse
}
