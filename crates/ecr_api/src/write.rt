// Replies as bytes (Amazon ECR API Reference; RFC 9112).
ghost use Rattle.std.specs.Prelude.{◌≡◌, ◌++◌, IfOk, None};
ghost use Rattle.ecr_model.specs.requests.Rendered.{json, refused, status_of, with_head};
ghost use Rattle.ecr_http.specs.Replies.{message_bytes};
ghost use Rattle.ecr_api.specs.Readings.{meaning};

use crate::Asked;
use crate::bodies::write_body;
use crate::head::write_json_head;
use ecr_blob_upload::Blob;
use ecr_errors::refusal_body;
use ecr_http::HttpReply;
use ecr_model::{Mem, Refusal, Reply};
use std::alloc::Global;

/// The longest body, in bytes, that is written in one piece with its head.
const ONE_WRITE: usize = 65_536;

/// The reply to what was asked, with the content that it names, in its order (`blobs`); it says `close` where the
/// session closes after it. No reply shows content yet.
///
/// The body is written once, into room that fits short names.
#[tactic(auto, unfolding(ecr_model::specs::requests::Rendered::json))]
pub fn write_reply(
    alloc: Global,
    asked: &Asked,
    reply: &Reply,
    blobs: &[Blob],
    close: bool,
) -> Result<HttpReply, Mem>
    ensures exact { IfOk result (λ r. message_bytes r ≡ json (meaning asked.now) reply.now blobs.now close) }
{
    let body = write_body(alloc, asked, reply)?;
    with_head(alloc, close, status_of(reply), body)
}

/// The reply to a body that asks for nothing; it says `close` where the session closes after it.
#[tactic(auto, unfolding(ecr_model::specs::requests::Rendered::refused, ecr_model::specs::requests::Refusals::refusal_body))]
pub fn write_refused(alloc: Global, refusal: &Refusal, close: bool) -> Result<HttpReply, Mem>
    ensures exact { IfOk result (λ r. message_bytes r ≡ refused refusal.now close) }
{
    let body = refusal_body(alloc, refusal, None, None)?;
    with_head(alloc, close, "400 Bad Request", body)
}

/// A reply of the JSON API with that body: one piece where the body is small, so that it goes out in one write with its
/// head, and else two, so that it isn't copied.
fn with_head(alloc: Global, close: bool, status: &str, body: Vec<u8>) -> Result<HttpReply, Mem>
    ensures { IfOk result (λ r. message_bytes r ≡ with_head close status.now body.items) }
{
    let size = body.len();
    if size > ONE_WRITE {
        let head = write_json_head(alloc, close, status, size, 0)?;
        return Ok(in_pieces(alloc, head, body));
    }
    let mut whole = write_json_head(alloc, close, status, size, size)?;
    whole.extend_from_slice(&body)?;
    Ok(in_pieces(alloc, whole, Vec::new(alloc)))
}

/// A reply that is written in those pieces.
fn in_pieces(alloc: Global, head: Vec<u8>, tail: Vec<u8>) -> HttpReply
    ensures { message_bytes result ≡ head.items ++ tail.items }
{
    HttpReply {
        head,
        body: Vec::new(alloc),
        tail,
    }
}

/// The status of a reply.
fn status_of(reply: &Reply) -> &'static str
    ensures { result.now ≡ status_of reply.now }
{
    match reply {
        Reply::Refused(_) => "400 Bad Request",
        _ => "200 OK",
    }
}
