// The line of a chunk, and the end of its data (RFC 9112, section 7.1). Places and sizes are in bytes.
ghost use Rattle.std.specs.Prelude.{◌≡◌};
ghost use Rattle.ecr_model.specs.http.Chunks.{line_size, line_end, Says};
ghost use Rattle.ecr_http.specs.Decoding.{IsClosed};

use crate::fault::Fault;
use httparse::{Status, parse_chunk_size};

/// The greatest length of a chunk's line, with its line end (of this registry).
pub(crate) const MAX_CHUNK_LINE: usize = 1_024;

/// The place of the first LF, if a chunk's line that ends there is within the limit.
#[tactic(auto, unfolding(ecr_model::specs::http::Chunks::max_chunk_line))]
pub(crate) fn line_end(bytes: &[u8]) -> Option<usize>
    ensures place { result ≡ line_end bytes.now }
{
    let end = line_size(bytes);
    if end < bytes.len().min(MAX_CHUNK_LINE) {
        Some(end)
    } else {
        None
    }
}

// How many bytes stand before the first LF.
fn line_size(bytes: &[u8]) -> usize
    ensures { result ≡ line_size bytes.now }
{
    bytes.iter().take_while(|byte| **byte != b'\n').count()
}

/// The chunk-size that a line says, or `None` where it is the line of no chunk.
pub(crate) fn size_of(line: &[u8]) -> Option<u64>
    ensures size { Says line.now result }
{
    match parse_chunk_size(line) {
        Ok(Status::Complete((len, size))) => { if len == line.len() { Some(size) } else { None } }
        Ok(Status::Partial) => None,
        Err(_) => None,
    }
}

/// Whether CR LF stands at the front of the bytes behind a chunk's data: false where too few are there to tell, and a
/// fault where others stand there.
pub(crate) fn is_closed(bytes: &[u8]) -> Result<bool, Fault>
    ensures closed { IsClosed bytes.now result }
{
    match bytes {
        [] => Ok(false),
        [b'\r'] => Ok(false),
        [b'\r', b'\n', ..] => Ok(true),
        _ => Err(Fault::Bad),
    }
}
