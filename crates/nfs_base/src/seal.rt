/// One of the three ends of an inter-server copy (RFC 7862 section 4).
#[derive(Clone, Copy, Debug, PartialEq, Eq)]
pub enum End {
    Source,
    Dest,
    Client,
}

/// Under what a record was sealed: the security context, by the server that made it, its boot and the
/// context's number there, and the sequence number within the context (RFC 2203 section 5.3).
#[derive(Clone, Copy, PartialEq, Eq)]
pub struct Seal {
    pub owner: End,
    pub boot: u32,
    pub number: u32,
    pub seq: u32,
}
