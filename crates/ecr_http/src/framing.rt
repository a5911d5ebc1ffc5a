// How a request's body is delimited, and what its head says of the session (RFC 9112, sections 6.3 and 9.6). Lengths
// are in bytes.
ghost use Rattle.std.specs.Prelude.{◌≡◌, ◌<◌, ◌^◌, false, length, take, IsTrue, option_map, ◌≤◌, ◌↔◌};
ghost use Rattle.std.specs.List.{list_all};
ghost use Rattle.std.specs.Char.{is_ascii_digit};
ghost use Rattle.std.specs.Str.Parse.{digits_value};
ghost use Rattle.std.specs.Option.{option_map_or};
ghost use Rattle.ecr_model.specs.http.Fields.{has_close};
ghost use Rattle.ecr_model.specs.http.Framing.{path_of, max_body, is_length, stated_by, is_chunked, delimited_by, framing_of, has_its_host, is_sent, waits};
ghost use Rattle.ecr_model.specs.http.Stream.{closes};
ghost use Rattle.ecr_http.specs.Bodies.{FitsLimit};

use crate::fields::{first_says, has_close};
use ecr_model::{Fields, Framing, Head, Request};

/// The greatest length of a body below `/v2/` (of this registry).
const MAX_BLOB_BODY: u64 = 536_870_912;

/// The greatest length of any other body (of this registry).
const MAX_BODY: u64 = 33_554_432;

/// The most digits of a stated length (of this registry).
const MAX_DIGITS: usize = 18;

/// How the body is delimited, or `None` where the head says it badly.
#[tactic(auto, unfolding(ecr_model::specs::http::Framing::framing_of))]
pub(crate) fn framing_of(head: &Head) -> Option<Framing>
    ensures framing { result ≡ framing_of head.now }
{
    if has_its_host(head) {
        delimited_by(&head.fields)
    } else {
        None
    }
}

/// How the body is delimited, by Transfer-Encoding where it stands, else by Content-Length.
fn delimited_by(fields: &Fields) -> Option<Framing>
    ensures { result ≡ delimited_by fields.now }
{
    if fields.count_of(b"transfer-encoding") == 0 {
        let size = stated_by(fields, fields.first_value(b"content-length"))?;
        return Some(Framing::Sized(size));
    }
    if is_chunked(fields) {
        Some(Framing::Chunked)
    } else {
        None
    }
}

/// Whether there is one transfer coding, `chunked`, letter case aside, and no stated length (RFC 9112, section 6.1).
fn is_chunked(fields: &Fields) -> bool
    ensures { result ≡ is_chunked fields.now }
{
    fields.count_of(b"transfer-encoding") == 1
        && first_says(fields, b"transfer-encoding", b"chunked")
        && fields.count_of(b"content-length") == 0
}

/// Whether a request of HTTP/1.1 has exactly one Host (RFC 9112, section 3.2).
fn has_its_host(head: &Head) -> bool
    ensures { result ≡ has_its_host head.now }
{
    head.minor != 1 || head.fields.count_of(b"host") == 1
}

/// Whether the client waits for a 100 before it sends the body (RFC 9110, section 10.1.1).
#[tactic(auto, unfolding(ecr_model::specs::http::Framing::waits))]
pub(crate) fn waits(head: &Head) -> bool
    ensures waits { result ≡ waits head.now }
{
    head.minor == 1 && first_says(&head.fields, b"expect", b"100-continue") && has_body(head)
}

/// Whether a body comes: a chunked one, or one of a stated length from 1 byte to the limit.
fn has_body(head: &Head) -> bool
    ensures { result ≡ option_map_or (is_sent (max_body head.now.target)) (framing_of head.now) false }
{
    match framing_of(head) {
        Some(framing) => is_sent(max_body(head.target.as_bytes()), framing),
        None => false,
    }
}

/// Whether a body that is delimited like that is sent.
fn is_sent(limit: u64, framing: Framing) -> bool
    ensures { result ≡ is_sent limit framing }
{
    match framing {
        Framing::Sized(size) => 0 < size && size <= limit,
        Framing::Chunked => true,
    }
}

/// Whether a body that is delimited like that can be within the limit.
pub(crate) fn fits_limit(framing: Framing, limit: u64) -> bool
    ensures fits { IsTrue result ↔ FitsLimit framing limit }
{
    match framing {
        Framing::Sized(size) => size <= limit,
        Framing::Chunked => true,
    }
}

/// Whether the session closes after the reply to the request (RFC 9112, section 9.6).
#[tactic(auto, unfolding(ecr_model::specs::http::Framing::says_close))]
pub fn closes(request: &Request) -> bool
    ensures closes { result ≡ closes request.now }
{
    request.minor == 0 || says_close(request.fields.first_value(b"connection"))
}

fn says_close(words: Option<&[u8]>) -> bool
    ensures { result ≡ option_map_or has_close (option_map (λ v. v.now) words.entry) false }
{
    match words {
        Some(text) => has_close(text),
        None => false,
    }
}

/// The path of a target: what stands before the first `?`.
pub fn path_of(target: &[u8]) -> &[u8]
    ensures path { result.now ≡ path_of target.now }
{
    for (at, byte) in target.iter().enumerate() {
        if *byte == b'?' {
            return &target[..at];
        }
    }
    target
}

/// The greatest length of a body, which goes by the path.
#[tactic(auto, unfolding(ecr_model::specs::http::Framing::max_body))]
pub(crate) fn max_body(target: &[u8]) -> u64
    ensures value { result ≡ max_body target.now }
    ensures small { result ≤ 536870912 }
{
    if front_of(path_of(target)) == b"/v2/".as_slice() {
        MAX_BLOB_BODY
    } else {
        MAX_BODY
    }
}

/// The first 4 bytes, or all where there are fewer.
fn front_of(path: &[u8]) -> &[u8]
    ensures { result.now ≡ take 4 path.now }
{
    if path.len() < 4 { path } else { &path[..4] }
}

/// The length that Content-Length states, which may be repeated unchanged; 0 without it.
fn stated_by(fields: &Fields, stated: Option<&[u8]>) -> Option<u64>
    ensures { result ≡ stated_by fields.now (option_map (λ v. v.now) stated.entry) }
{
    let Some(text) = stated else { return Some(0) };
    if fields.each_is(b"content-length", text) && is_length(text) {
        Some(value_of(text))
    } else {
        None
    }
}

/// Whether the text is 1 to 18 digits.
fn is_length(text: &[u8]) -> bool
    ensures { result ≡ is_length text.now }
{
    !text.is_empty() && text.len() <= MAX_DIGITS && are_digits(text)
}

/// Whether each byte is a digit.
fn are_digits(text: &[u8]) -> bool
    ensures { result ≡ list_all is_ascii_digit text.now }
{
    text.iter().all(|byte| byte.is_ascii_digit())
}

/// The number that 1 to 18 digits represent.
fn value_of(digits: &[u8]) -> u64
    requires { IsTrue (is_length digits.now) }
    ensures { result ≡ digits_value 10 digits.now }
{
    let mut value: u64 = 0;
    for digit in digits {
        value = 10 * value + (*digit - b'0') as u64;
    }
    value
}
