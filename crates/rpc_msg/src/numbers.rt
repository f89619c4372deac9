// Numbers of the heads of messages (RFC 5531 section 9), of flavors (section 8.2) and of RPCSEC_GSS (RFC 2203
// section 5 and RFC 5403 section 4).

/// The version of RPC.
pub const RPC_VERSION: u32 = 2;

/// The message type of a call.
pub const CALL: u32 = 0;
/// The message type of a reply.
pub const REPLY: u32 = 1;

/// The reply_stat of a call that was accepted.
pub const MSG_ACCEPTED: u32 = 0;
/// The reply_stat of a call that was denied.
pub const MSG_DENIED: u32 = 1;

/// accept_stat: the call was carried out.
pub const SUCCESS: u32 = 0;
/// accept_stat: the program isn't served.
pub const PROG_UNAVAIL: u32 = 1;
/// accept_stat: the program is served in other versions.
pub const PROG_MISMATCH: u32 = 2;
/// accept_stat: the program has no such procedure.
pub const PROC_UNAVAIL: u32 = 3;
/// accept_stat: the arguments aren't spelled.
pub const GARBAGE_ARGS: u32 = 4;
/// accept_stat: want of memory.
pub const SYSTEM_ERR: u32 = 5;

/// reject_stat: RPC is spoken in other versions.
pub const RPC_MISMATCH: u32 = 0;
/// reject_stat: the caller isn't known or may not call.
pub const AUTH_ERROR: u32 = 1;

/// The flavor of no one.
pub const AUTH_NONE: u32 = 0;
/// The flavor of numeric user and group IDs.
pub const AUTH_SYS: u32 = 1;
/// The flavor of RPCSEC_GSS.
pub const RPCSEC_GSS: u32 = 6;

/// The most bytes in the body of a credential or a verifier.
pub const AUTH_LIMIT: u32 = 400;

/// auth_stat: the credential isn't one.
pub const AUTH_BADCRED: u32 = 1;
/// auth_stat: the flavor is too weak.
pub const AUTH_TOOWEAK: u32 = 5;
/// auth_stat: the credential of RPCSEC_GSS names no context that is in use.
pub const RPCSEC_GSS_CREDPROBLEM: u32 = 13;
/// auth_stat: the context refuses the call.
pub const RPCSEC_GSS_CTXPROBLEM: u32 = 14;

/// The procedure of a call under a context.
pub const RPCSEC_GSS_DATA: u32 = 0;
/// The procedure that begins a context.
pub const RPCSEC_GSS_INIT: u32 = 1;
/// The procedure that goes on beginning one.
pub const RPCSEC_GSS_CONTINUE_INIT: u32 = 2;
/// The procedure that ends a context.
pub const RPCSEC_GSS_DESTROY: u32 = 3;

/// The service that protects no body.
pub const RPC_GSS_SVC_NONE: u32 = 1;
/// The service that protects a body against change.
pub const RPC_GSS_SVC_INTEGRITY: u32 = 2;
/// The service that also hides a body.
pub const RPC_GSS_SVC_PRIVACY: u32 = 3;
