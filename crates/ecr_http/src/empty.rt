// Replies without a body (RFC 9112, section 6.3).
ghost use Rattle.std.specs.Prelude.{◌≡◌, IfOk};
ghost use Rattle.ecr_http.specs.Replies.{message_bytes};
ghost use Rattle.ecr_model.specs.http.Replies.{connection_line, empty_reply};

use crate::reply::HttpReply;
use ecr_model::Mem;
use std::alloc::Global;

/// Room for such a reply, in bytes.
const HEAD_ROOM: usize = 128;

/// A reply of that status without a body, such as `404 Not Found`; it says `close` where the session closes after it.
pub fn write_empty(alloc: Global, close: bool, status: &str) -> Result<HttpReply, Mem>
    ensures bytes { IfOk result (λ r. message_bytes r ≡ empty_reply close status.now) }
{
    let head = write_head(alloc, close, status)?;
    Ok(HttpReply {
        head,
        body: Vec::new(alloc),
        tail: Vec::new(alloc),
    })
}

// The bytes of such a reply.
#[tactic(auto, unfolding(ecr_model::specs::http::Replies::empty_reply))]
fn write_head(alloc: Global, close: bool, status: &str) -> Result<Vec<u8>, Mem>
    ensures { IfOk result (λ v. v.items ≡ empty_reply close status.now) }
{
    let mut head = Vec::with_capacity(alloc, HEAD_ROOM)?;
    head.extend_from_slice(b"HTTP/1.1 ")?;
    head.extend_from_slice(status.as_bytes())?;
    head.extend_from_slice(b"\r\n")?;
    head.extend_from_slice(connection_line(close))?;
    head.extend_from_slice(b"Content-Length: 0")?;
    head.extend_from_slice(b"\r\n")?;
    head.extend_from_slice(b"\r\n")?;
    Ok(head)
}

/// The header of a reply after which the session closes (RFC 9112, section 9.6); of another reply, no bytes.
pub fn connection_line(close: bool) -> &'static [u8]
    ensures line { result.now ≡ connection_line close }
{
    if close { b"Connection: close\r\n" } else { b"" }
}
