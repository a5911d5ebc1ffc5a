// What was read of a request (RFC 9112).
pub mod fields;

use crate::{Fields, Text};

/// The head of a request (RFC 9112, sections 3 and 5).
#[derive(Drop)]
pub struct Head {
    pub method: Text,
    pub target: Text,
    /// The minor version, `1` for HTTP/1.1.
    pub minor: u8,
    pub fields: Fields,
}

/// How the body of a request is delimited (RFC 9112, section 6.3).
#[derive(Clone, Copy, Debug, PartialEq, Eq)]
pub enum Framing {
    /// It has so many bytes.
    Sized(u64),
    /// It comes in chunks (RFC 9112, section 7.1).
    Chunked,
}

/// A section of a request, which has a limit of its own (RFC 9112, sections 2.1 and 7.1.2).
#[derive(Clone, Copy)]
pub enum Section {
    /// The request line and the header section.
    Head,
    /// The body.
    Body,
    /// The trailer section of a body that comes in chunks.
    Trailers,
}

/// A whole request.
#[derive(Drop)]
pub struct Request {
    /// The number of bytes of the input before its first byte.
    pub at: u64,
    pub method: Text,
    pub target: Text,
    pub fields: Fields,
    /// The bytes behind the head, without what delimits them.
    pub body: Text,
    /// The minor version, `1` for HTTP/1.1.
    pub minor: u8,
}
