// Sites, names and long texts.
use ecr_model::{Mem, Name, RepoKey, SharedText, SiteId};
use std::alloc::Global;

/// A mebibyte, in bytes.
pub(crate) const MEBIBYTE: usize = 1_048_576;

/// What is told of an answer of `Mem`.
pub(crate) const NO_MEMORY: &str = "no memory";

pub(crate) fn site_in(alloc: Global, region: &str) -> Result<SiteId, Mem> {
    Ok(SiteId {
        region: SharedText::copy_of(alloc, region.as_bytes())?,
        account: SharedText::copy_of(alloc, b"111122223333")?,
    })
}

pub(crate) fn site(alloc: Global) -> Result<SiteId, Mem> {
    site_in(alloc, "us-east-1")
}

pub(crate) fn named(alloc: Global, text: &str) -> Result<Name, Mem> {
    Ok(Name {
        text: SharedText::copy_of(alloc, text.as_bytes())?,
    })
}

pub(crate) fn key(alloc: Global, text: &str) -> Result<RepoKey, Mem> {
    Ok(RepoKey {
        site: site(alloc)?,
        name: named(alloc, text)?,
    })
}

/// A text of that size in bytes: the front, the piece as often as it fits whole, spaces, and the back.
pub(crate) fn filled(
    alloc: Global,
    front: &str,
    piece: &str,
    back: &str,
    size: usize,
) -> Result<String, Mem> {
    let room = size.saturating_sub(front.len()).saturating_sub(back.len());
    let width = piece.len().max(1);
    let block = repeated(alloc, piece, BLOCK)?;
    let times = room / width;
    let mut text = String::with_capacity(alloc, size)?;
    text.push_str(front)?;
    for _ in 0..times / BLOCK {
        text.push_str(block.as_str())?;
    }
    text.push_str(repeated(alloc, piece, times % BLOCK)?.as_str())?;
    text.push_str(repeated(alloc, " ", room % width)?.as_str())?;
    text.push_str(back)?;
    Ok(text)
}

/// How many pieces are put at once.
const BLOCK: usize = 1_024;

/// The piece so many times.
fn repeated(alloc: Global, piece: &str, times: usize) -> Result<String, Mem> {
    let mut text = String::new(alloc);
    for _ in 0..times {
        text.push_str(piece)?;
    }
    Ok(text)
}
