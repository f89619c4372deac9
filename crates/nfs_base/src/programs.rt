/// The RPC program of NFS (RFC 8881 section 3.1).
pub const NFS_PROGRAM: u32 = 100_003;

/// The version of the program that is NFSv4, all its minor versions included.
pub const NFS_VERSION: u32 = 4;

/// The RPC program that a client serves for its servers' callbacks. Its number is the client's own choice
/// (RFC 8881 section 18.36); all of these clients choose this one.
pub const CALLBACK_PROGRAM: u32 = 0x4000_0000;

/// The version of the callback program (RFC 8881 section 20).
pub const CALLBACK_VERSION: u32 = 1;

/// The procedure of both programs that does nothing (RFC 8881 sections 16.1 and 20.1).
pub const PROC_NULL: u32 = 0;

/// The procedure of both programs that has operations: COMPOUND and CB_COMPOUND (RFC 8881 sections 16.2
/// and 20.2).
pub const PROC_COMPOUND: u32 = 1;
