ghost use Rattle.std.specs.Prelude.{◌≡◌};
ghost use Rattle.copy_ops.specs.Operations as operations;

/// The number of COPY (RFC 7862 section 15.2).
pub const OP_COPY: u32 = 60;

/// The number of COPY_NOTIFY (RFC 7862 section 15.3).
pub const OP_COPY_NOTIFY: u32 = 61;

/// The number of OFFLOAD_CANCEL (RFC 7862 section 15.8).
pub const OP_OFFLOAD_CANCEL: u32 = 66;

/// The number of OFFLOAD_STATUS (RFC 7862 section 15.9).
pub const OP_OFFLOAD_STATUS: u32 = 67;

/// The number of CLONE (RFC 7862 section 15.13).
pub const OP_CLONE: u32 = 71;

/// The number of CB_OFFLOAD among the operations of callbacks (RFC 7862 section 16.1).
pub const OP_CB_OFFLOAD: u32 = 15;

/// Whether the number is of an operation of [`crate::CopyArg`].
pub fn is_copy_op(op: u32) -> bool
    ensures { result ≡ operations.is_copy_op op }
{
    matches!(
        op,
        OP_COPY | OP_COPY_NOTIFY | OP_OFFLOAD_CANCEL | OP_OFFLOAD_STATUS | OP_CLONE
    )
}
