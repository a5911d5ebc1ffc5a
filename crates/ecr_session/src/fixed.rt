// Replies whose bytes are fixed, and the method of which no reply has a body.
ghost use Rattle.std.specs.Prelude.{◌≡◌};
ghost use Rattle.ecr_model.specs.http.Replies.{bad_reply, is_head, long_reply};

use ecr_model::{Request, Section};

/// Whether the request is one of HEAD, whose reply has no body (RFC 9110, section 9.3.2).
pub(crate) fn is_head(request: &Request) -> bool
    ensures { result ≡ is_head request.now }
{
    request.method.as_bytes() == b"HEAD".as_slice()
}

/// The reply to what is no request.
pub(crate) fn bad_reply() -> &'static [u8]
    ensures { result.now ≡ bad_reply }
{
    b"HTTP/1.1 400 Bad Request\r\n\
      Connection: close\r\n\
      Content-Length: 0\r\n\r\n"
}

/// The reply to more bytes than the limit of that section allows.
pub(crate) fn long_reply(section: Section) -> &'static [u8]
    ensures { result.now ≡ long_reply section }
{
    match section {
        Section::Head | Section::Trailers => {
            b"HTTP/1.1 431 Request Header Fields Too Large\r\n\
              Connection: close\r\n\
              Content-Length: 0\r\n\r\n"
        }
        Section::Body => {
            b"HTTP/1.1 413 Content Too Large\r\n\
              Connection: close\r\n\
              Content-Length: 0\r\n\r\n"
        }
    }
}
