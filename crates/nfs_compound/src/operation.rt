ghost use Rattle.std.specs.Prelude.{◌≡◌, ℕ, Bool};

use wire_xdr::XdrBy;

/// What is known of an operation's number.
#[derive(Clone, Copy, PartialEq, Eq)]
pub enum Class {
    /// It is read and written.
    Listed,
    /// The protocol has it, and it isn't served.
    Unsupported,
    /// The protocol doesn't have it.
    Illegal,
}

/// The operations of a program: behind its number stands what that number says.
pub trait Operation: XdrBy {
    ghost use Rattle.nfs_compound.specs.declared.operation.Class.{Class};

    // What is known of each number.
    ghost class: { ℕ → Class };

    // Behind which operations nothing is looked at.
    ghost is_cut: { Self → Bool };

    /// What is known of a number.
    fn class_of(op: u32) -> Class
        ensures { result ≡ class op };

    /// Whether nothing is looked at behind this operation.
    fn cuts(&self) -> bool
        ensures { result ≡ is_cut self.now };
}
