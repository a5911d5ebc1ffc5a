// The reply where there is no memory (RFC 9110, section 15.6.1).
ghost use Rattle.std.specs.Prelude.{◌≡◌, false, true};
ghost use Rattle.ecr_model.specs.http.Replies.{failed_reply};

/// The whole reply where there was no memory for another. It says `close` where the session closes after it, and has no
/// body where it answers HEAD (RFC 9110, section 9.3.2).
///
/// It takes no memory.
pub fn fixed_500(close: bool, head: bool) -> &'static [u8]
    ensures bytes { result.now ≡ failed_reply head close }
{
    if head {
        failed_head(close)
    } else {
        failed_whole(close)
    }
}

/// Without its body.
fn failed_head(close: bool) -> &'static [u8]
    ensures { result.now ≡ failed_reply true close }
{
    if close {
        b"HTTP/1.1 500 Internal Server Error\r\n\
          Connection: close\r\n\
          Content-Length: 53\r\n\
          Content-Type: application/x-amz-json-1.1\r\n\r\n"
    } else {
        b"HTTP/1.1 500 Internal Server Error\r\n\
          Content-Length: 53\r\n\
          Content-Type: application/x-amz-json-1.1\r\n\r\n"
    }
}

/// With its body.
fn failed_whole(close: bool) -> &'static [u8]
    ensures { result.now ≡ failed_reply false close }
{
    if close {
        b"HTTP/1.1 500 Internal Server Error\r\n\
          Connection: close\r\n\
          Content-Length: 53\r\n\
          Content-Type: application/x-amz-json-1.1\r\n\r\n\
          {\"__type\":\"ServerException\",\"message\":\"server error\"}"
    } else {
        b"HTTP/1.1 500 Internal Server Error\r\n\
          Content-Length: 53\r\n\
          Content-Type: application/x-amz-json-1.1\r\n\r\n\
          {\"__type\":\"ServerException\",\"message\":\"server error\"}"
    }
}
