ghost use Rattle.nfs_base.specs.Text.{side_text};
ghost use Rattle.std.specs.Prelude.{Some};

use std::fmt;

/// One of the two servers of an inter-server copy (RFC 7862 section 4).
#[derive(Clone, Copy, Debug, PartialEq, Eq)]
pub enum Side {
    Source,
    Dest,
}

impl fmt::Display for Side {
    ghost output = { λ side. Some (side_text side) };

    fn fmt<W: fmt::Write>(&self, f: &mut fmt::Formatter<W>) -> fmt::Result {
        f.write_str(match self {
            Side::Source => "s",
            Side::Dest => "d",
        })
    }
}
