// A request's head: where it ends, and what it says.
ghost use Rattle.std.specs.Prelude.{◌≡◌, ◌≤◌, length, IfOk};
ghost use Rattle.httparse.specs.Spans.{IsWithin, span_bytes};
ghost use Rattle.ecr_model.specs.http.Framing.{max_head, ends_empty, HasNoEnd, EndsAt, Parses};
ghost use Rattle.ecr_http.specs.Spans.{head_at};
ghost use Rattle.ecr_http.specs.Lines.{IsNextLine, line_count};

use ecr_model::{Fields, Head, Mem, Text};
use httparse::Status;
use httparse::spans::{EMPTY_HEADER_SPAN, HeaderSpan, RequestSpans, Span, parse_request};
use memchr::memchr;
use std::alloc::Global;

/// The greatest length of a head, in bytes.
pub const MAX_HEAD: usize = 65_536;

/// How many bytes are looked at for one count of lines, which fits a byte.
const COUNTED: usize = 128;

// Whether the first `n` bytes end with an empty line.
#[tactic(auto, unfolding(ecr_model::specs::http::Framing::ends_empty))]
fn ends_empty(bytes: &[u8], n: usize) -> bool
    requires { n ≤ length bytes.now }
    ensures { result ≡ ends_empty bytes.now n }
{
    n > 1
        && bytes[n - 1] == b'\n'
        && (bytes[n - 2] == b'\n' || (n > 2 && bytes[n - 2] == b'\r' && bytes[n - 3] == b'\n'))
}

/// Finds where a head ends, if its end is there. None ends in the first `from` bytes, which aren't looked at again.
#[tactic(auto, unfolding(ecr_model::specs::http::Framing::max_head))]
pub(crate) fn find_end(bytes: &[u8], from: usize) -> Option<usize>
    requires within { from ≤ length bytes.now }
    requires known { HasNoEnd bytes.now from }
    ensures end { EndsAt max_head bytes.now result }
{
    find_end_within(bytes, from, MAX_HEAD)
}

/// Finds where the first empty line ends, if that is within the limit. None ends in the first `from` bytes, which
/// aren't looked at again.
pub(crate) fn find_end_within(bytes: &[u8], from: usize, limit: usize) -> Option<usize>
    requires within { from ≤ length bytes.now }
    requires known { HasNoEnd bytes.now from }
    ensures end { EndsAt limit bytes.now result }
{
    let last = bytes.len().min(limit);
    let mut looked = from;
    while looked < last {
        let Some(n) = next_line(bytes, looked, last) else {
            return None;
        };
        if ends_empty(bytes, n) {
            return Some(n);
        }
        looked = n;
    }
    None
}

// The end of the first line that ends behind the first `from` bytes and within the first `to`.
fn next_line(bytes: &[u8], from: usize, to: usize) -> Option<usize>
    requires { (from ≤ to) × (to ≤ length bytes.now) }
    ensures { IsNextLine bytes.now from to result }
{
    match memchr(b'\n', &bytes[from..to]) {
        Some(at) => Some(from + at + 1),
        None => None,
    }
}

fn text_at(alloc: Global, head: &[u8], span: Span) -> Result<Text, Mem>
    requires { IsWithin (length head.now) span }
    ensures { IfOk result (λ t. t ≡ span_bytes head.now span) }
{
    Text::copy_of(alloc, span.of(head))
}

// How many lines end in the bytes, which is no less than the number of their fields. They are counted in pieces whose
// count fits a byte, so that a processor compares many bytes at once.
fn count_lines(bytes: &[u8]) -> usize
    ensures { result ≡ line_count bytes.now }
{
    let mut lines: usize = 0;
    let mut rest = bytes;
    while rest.len() > COUNTED {
        let (piece, behind) = rest.split_at(COUNTED);
        lines += count_few(piece) as usize;
        rest = behind;
    }
    lines + count_few(rest) as usize
}

// How many lines end in few bytes.
fn count_few(piece: &[u8]) -> u8
    requires { length piece.now ≤ 255 }
    ensures { result ≡ line_count piece.now }
{
    let mut lines: u8 = 0;
    for byte in piece {
        if *byte == b'\n' {
            lines += 1;
        }
    }
    lines
}

// The head that was read of these bytes, by its parts.
fn head_from(
    alloc: Global,
    bytes: &[u8],
    parts: &RequestSpans,
    places: Vec<HeaderSpan>,
) -> Result<Head, Mem>
    requires method { IsWithin (length bytes.now) parts.now.method }
    requires target { IsWithin (length bytes.now) parts.now.path }
    ensures { IfOk result (λ h. h ≡ head_at bytes.now parts.now places.items) }
{
    let method = text_at(alloc, bytes, parts.method)?;
    let target = text_at(alloc, bytes, parts.path)?;
    let head = Vec::from_slice(alloc, bytes)?;
    Ok(Head {
        method,
        target,
        minor: parts.version,
        fields: Fields::new(head, places),
    })
}

/// Reads these bytes as a head, which they must be as a whole; none, if they aren't one. The fields take room for as
/// many as there are lines.
pub(crate) fn parse_head(alloc: Global, bytes: &[u8]) -> Result<Option<Head>, Mem>
    ensures parses { IfOk result (λ head. Parses bytes.now head) }
{
    let mut places = vec![in alloc; EMPTY_HEADER_SPAN; count_lines(bytes)]?;
    match parse_request(bytes, &mut places) {
        Ok(Status::Complete(parts)) => {
            if parts.len != bytes.len() {
                return Ok(None);
            }
            places.truncate(parts.headers);
            let head = head_from(alloc, bytes, &parts, places)?;
            Ok(Some(head))
        }
        Ok(Status::Partial) => Ok(None),
        Err(_) => Ok(None),
    }
}
