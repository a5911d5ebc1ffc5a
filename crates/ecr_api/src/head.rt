// The heads of replies (RFC 9112, sections 4 and 6).
ghost use Rattle.std.specs.Prelude.{◌≡◌, IfOk, decimal, string_bytes};
ghost use Rattle.ecr_model.specs.http.Replies.{json_head};

use ecr_http::connection_line;
use ecr_model::Mem;
use std::alloc::Global;

/// Room for each head, in bytes.
const HEAD_ROOM: usize = 128;

/// A reply of the JSON API up to its body of so many bytes; it says `close` where the session closes after it. There is
/// room for `room` bytes more behind it.
#[tactic(auto, unfolding(ecr_model::specs::http::Replies::json_head))]
pub(crate) fn write_json_head(
    alloc: Global,
    close: bool,
    status: &str,
    size: usize,
    room: usize,
) -> Result<Vec<u8>, Mem>
    ensures { IfOk result (λ v. v.items ≡ json_head close status.now size) }
{
    let digits = write_decimal(alloc, size)?;
    let mut head = Vec::with_capacity(alloc, room.saturating_add(HEAD_ROOM))?;
    head.extend_from_slice(b"HTTP/1.1 ")?;
    head.extend_from_slice(status.as_bytes())?;
    head.extend_from_slice(b"\r\n")?;
    head.extend_from_slice(connection_line(close))?;
    head.extend_from_slice(b"Content-Length: ")?;
    head.extend_from_slice(digits.as_bytes())?;
    head.extend_from_slice(b"\r\n")?;
    head.extend_from_slice(b"Content-Type: application/x-amz-json-1.1")?;
    head.extend_from_slice(b"\r\n")?;
    head.extend_from_slice(b"\r\n")?;
    Ok(head)
}

/// The number in decimal.
fn write_decimal(alloc: Global, number: usize) -> Result<String, Mem>
    ensures { IfOk result (λ s. string_bytes s ≡ decimal number) }
{
    number.to_string(alloc)
}
