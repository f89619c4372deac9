ghost use Rattle.nfs_base.specs.Text.{cause_text, priv_cause_text};
ghost use Rattle.std.specs.Prelude.{Some};

use std::fmt;

/// Why a server refused to take a privilege (CREATE's structured privileges, RFC 7861 section 2.7.1).
#[derive(Clone, Copy, Debug, PartialEq, Eq)]
pub enum PrivCause {
    /// The privilege is of no kind that this server takes.
    Unknown,

    /// The server has nothing that the privilege could be matched with.
    NoMatch,

    /// The privilege names another user.
    WrongUser,

    /// The privilege came from, or names, another server.
    WrongPeer,
}

impl fmt::Display for PrivCause {
    ghost output = { λ cause. Some (priv_cause_text cause) };

    fn fmt<W: fmt::Write>(&self, f: &mut fmt::Formatter<W>) -> fmt::Result {
        f.write_str(match self {
            PrivCause::Unknown => "unknown",
            PrivCause::NoMatch => "nomatch",
            PrivCause::WrongUser => "wronguser",
            PrivCause::WrongPeer => "wrongpeer",
        })
    }
}

/// Why a source didn't let a destination read under a grant of COPY_NOTIFY (RFC 7862 section 15.3).
#[derive(Clone, Copy, PartialEq, Eq)]
pub enum Cause {
    /// The context carries no privilege that confirms a copy.
    NoPrivilege,

    /// The stateid is of another boot.
    Stale,

    /// No grant has the stateid's number.
    Unknown,

    /// The grant was last used too long ago.
    Expired,

    /// The grant is for another file.
    WrongFile,

    /// The grant is for another destination.
    WrongDestination,

    /// The grant is for another user.
    WrongUser,

    /// The code isn't that of the grant's secret.
    Unconfirmed,
}

impl fmt::Display for Cause {
    ghost output = { λ cause. Some (cause_text cause) };

    fn fmt<W: fmt::Write>(&self, f: &mut fmt::Formatter<W>) -> fmt::Result {
        f.write_str(match self {
            Cause::NoPrivilege => "noprivilege",
            Cause::Stale => "stale",
            Cause::Unknown => "unknown",
            Cause::Expired => "expired",
            Cause::WrongFile => "wrongfile",
            Cause::WrongDestination => "wrongdestination",
            Cause::WrongUser => "wronguser",
            Cause::Unconfirmed => "unconfirmed",
        })
    }
}
