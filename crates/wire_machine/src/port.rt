use nfs_base::Side;

/// Where a record goes in.
#[derive(Clone, Copy, PartialEq, Eq)]
pub enum Port {
    /// At the source, on one of its connections. Connection 0 is the client's, and each other that of the worker of its
    /// number.
    Source { conn: u32 },

    /// At the destination, on the client's connection.
    Dest,

    /// At the destination, as an answer to the worker of this number.
    Worker { worker: u32 },

    /// At the client, from a server.
    Client { from: Side },
}
