// How a request and a session ended.
use crate::Digest;

/// What fixes the answer to one request beside the request itself.
#[derive(Clone, Copy, Debug, PartialEq, Eq)]
pub struct Cut {
    /// How many entries the request added.
    pub entries: u64,
    /// Whether its answer is that the server found no memory.
    pub failed: bool,
    /// The digest of all parts with which an upload's completion was decided.
    pub sealed: Option<Digest>,
}

/// How a command ended. Places count the bytes of the input before a request's first byte.
#[derive(Clone, Copy, Debug, PartialEq, Eq)]
pub enum End {
    /// The input ended between two requests, or the last request closes the session.
    Whole,
    /// The words aren't a command.
    Usage,
    /// The source failed.
    ReadFault,
    /// The sink failed.
    WriteFault,
    /// There was no memory to read a request.
    Mem,
    /// The acceptor of links failed.
    AcceptFault,
    /// The input ended inside the request at this place.
    Truncated { at: u64 },
    /// What stands at this place is no request that is served.
    Bad { at: u64 },
    /// What stands at this place has more bytes than the limit allows.
    TooLong { at: u64, limit: u64 },
    /// All bytes that a session may read were read, and more were needed.
    Spent,
}
