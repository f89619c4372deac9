//! The operations by number and name (RFC 8881 section 18).

ghost use Rattle.std.specs.Prelude.{◌≡◌};
ghost use Rattle.file_ops.specs.Operations as operations;

/// The number of CLOSE (RFC 8881 section 18.2).
pub const OP_CLOSE: u32 = 4;

/// The number of COMMIT (RFC 8881 section 18.3).
pub const OP_COMMIT: u32 = 5;

/// The number of GETATTR (RFC 8881 section 18.7).
pub const OP_GETATTR: u32 = 9;

/// The number of GETFH (RFC 8881 section 18.8).
pub const OP_GETFH: u32 = 10;

/// The number of LOOKUP (RFC 8881 section 18.13).
pub const OP_LOOKUP: u32 = 15;

/// The number of OPEN (RFC 8881 section 18.16).
pub const OP_OPEN: u32 = 18;

/// The number of PUTFH (RFC 8881 section 18.19).
pub const OP_PUTFH: u32 = 22;

/// The number of PUTROOTFH (RFC 8881 section 18.21).
pub const OP_PUTROOTFH: u32 = 24;

/// The number of READ (RFC 8881 section 18.22).
pub const OP_READ: u32 = 25;

/// The number of RESTOREFH (RFC 8881 section 18.27).
pub const OP_RESTOREFH: u32 = 31;

/// The number of SAVEFH (RFC 8881 section 18.28).
pub const OP_SAVEFH: u32 = 32;

/// The number of WRITE (RFC 8881 section 18.32).
pub const OP_WRITE: u32 = 38;

/// The number of EXCHANGE_ID (RFC 8881 section 18.35).
pub const OP_EXCHANGE_ID: u32 = 42;

/// The number of CREATE_SESSION (RFC 8881 section 18.36).
pub const OP_CREATE_SESSION: u32 = 43;

/// The number of DESTROY_SESSION (RFC 8881 section 18.37).
pub const OP_DESTROY_SESSION: u32 = 44;

/// The number of SEQUENCE (RFC 8881 section 18.46).
pub const OP_SEQUENCE: u32 = 53;

/// The number of DESTROY_CLIENTID (RFC 8881 section 18.50).
pub const OP_DESTROY_CLIENTID: u32 = 57;

/// The number of RECLAIM_COMPLETE (RFC 8881 section 18.51).
pub const OP_RECLAIM_COMPLETE: u32 = 58;

/// The number of ILLEGAL (RFC 8881 section 18.52).
pub const OP_ILLEGAL: u32 = 10044;

/// The number of CB_SEQUENCE among the operations of callbacks (RFC 8881 section 20.9).
pub const OP_CB_SEQUENCE: u32 = 11;

/// Whether the number is of an operation of [`crate::FileArg`].
pub fn is_file_op(op: u32) -> bool
    ensures { result ≡ operations.is_file_op op }
{
    matches!(
        op,
        OP_CLOSE
            | OP_COMMIT
            | OP_GETATTR
            | OP_GETFH
            | OP_LOOKUP
            | OP_OPEN
            | OP_PUTFH
            | OP_PUTROOTFH
            | OP_READ
            | OP_RESTOREFH
            | OP_SAVEFH
            | OP_WRITE
            | OP_EXCHANGE_ID
            | OP_CREATE_SESSION
            | OP_DESTROY_SESSION
            | OP_SEQUENCE
            | OP_DESTROY_CLIENTID
            | OP_RECLAIM_COMPLETE
            | OP_ILLEGAL
    )
}

/// The name of the operation with a number, in capitals. It is empty where [`crate::FileArg`] has none with
/// that number.
pub fn file_op_name(op: u32) -> &'static str
    ensures { result.now ≡ operations.file_op_name op }
{
    match op {
        OP_CLOSE => "CLOSE",
        OP_COMMIT => "COMMIT",
        OP_GETATTR => "GETATTR",
        OP_GETFH => "GETFH",
        OP_LOOKUP => "LOOKUP",
        OP_OPEN => "OPEN",
        OP_PUTFH => "PUTFH",
        OP_PUTROOTFH => "PUTROOTFH",
        OP_READ => "READ",
        OP_RESTOREFH => "RESTOREFH",
        OP_SAVEFH => "SAVEFH",
        OP_WRITE => "WRITE",
        OP_EXCHANGE_ID => "EXCHANGE_ID",
        OP_CREATE_SESSION => "CREATE_SESSION",
        OP_DESTROY_SESSION => "DESTROY_SESSION",
        OP_SEQUENCE => "SEQUENCE",
        OP_DESTROY_CLIENTID => "DESTROY_CLIENTID",
        OP_RECLAIM_COMPLETE => "RECLAIM_COMPLETE",
        OP_ILLEGAL => "ILLEGAL",
        _ => "",
    }
}
