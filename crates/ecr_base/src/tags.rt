// Tags (OCI Distribution 1.1, "Pulling manifests", `<reference>` as a tag).
ghost use Rattle.std.specs.Prelude.{◌≡◌, IfOk};
ghost use Rattle.std.specs.List.{list_all};
ghost use Rattle.ecr_model.specs.names.Tags.{begins_tag, is_tag, is_tag_byte, tag_of};

use ecr_model::{Mem, SharedText, Tag};
use std::alloc::Global;

/// The most bytes of a tag after its first (OCI Distribution 1.1, "Pulling manifests").
const MAX_REST: usize = 127;

/// Whether the text is a tag: `[a-zA-Z0-9_][a-zA-Z0-9._-]{0,127}`.
///
/// The length is tested before the bytes after the first, so a text of any length is answered in the time of 128 bytes.
#[tactic(auto, unfolding(ecr_model::specs::names::Tags::is_tag))]
pub fn is_tag(text: &[u8]) -> bool
    ensures exact { result ≡ is_tag text.now }
{
    match text {
        [byte, rest @ ..] => begins_tag(*byte) && rest.len() <= MAX_REST && are_tag_bytes(rest),
        [] => false,
    }
}

/// The tag that the text is, or `None` where it isn't one.
#[tactic(auto, unfolding(ecr_model::specs::names::Tags::tag_of))]
pub fn read_tag(alloc: Global, text: &[u8]) -> Result<Option<Tag>, Mem>
    ensures exact { IfOk result (λ o. o ≡ tag_of text.now) }
{
    if !is_tag(text) {
        return Ok(None);
    }
    let text = SharedText::copy_of(alloc, text)?;
    Ok(Some(Tag { text }))
}

/// Whether each byte is one of `[a-zA-Z0-9._-]`.
fn are_tag_bytes(text: &[u8]) -> bool
    ensures { result ≡ list_all is_tag_byte text.now }
{
    text.iter().all(|byte| is_tag_byte(*byte))
}

/// Whether the byte is one of `[a-zA-Z0-9._-]`.
fn is_tag_byte(byte: u8) -> bool
    ensures { result ≡ is_tag_byte byte }
{
    begins_tag(byte) || byte == b'.' || byte == b'-'
}

/// Whether the byte is one of `[a-zA-Z0-9_]`.
fn begins_tag(byte: u8) -> bool
    ensures { result ≡ begins_tag byte }
{
    matches!(byte, b'a'..=b'z' | b'A'..=b'Z' | b'0'..=b'9' | b'_')
}
