// Numbers of RPCSEC_GSS that `rpc_msg` doesn't have.

/// The version of a credential (RFC 2203 section 5).
pub const RPCSEC_GSS_VERSION_1: u32 = 1;
/// The version of a credential whose contexts may have children (RFC 7861 section 2).
pub const RPCSEC_GSS_VERSION_3: u32 = 3;

/// The procedure that makes a child (RFC 7861 section 2).
pub const RPCSEC_GSS_CREATE: u32 = 5;

/// The kind of key that a child has, derived from its parent's (own).
pub const CHILD_KEY: u8 = 4;
/// The kind of key that a callback context has, derived from that of the context that made its session (own).
pub const CALLBACK_KEY: u8 = 5;
