/// Why a client has ended.
#[derive(Clone, Copy, PartialEq, Eq)]
pub enum ClientEnd {
    /// It wasn't used for 90 seconds, and made room for another one (RFC 8881 section 8.3).
    Lapsed,

    /// Another one of the same owner took its place, or DESTROY_CLIENTID ended it (RFC 8881 sections 18.35 and 18.50).
    Gone,
}
