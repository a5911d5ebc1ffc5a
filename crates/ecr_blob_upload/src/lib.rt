//! Content that is shared and never changes: [`Blob`]s, which are named by their digest, and [`Bytes`], which have
//! none. With it goes what a call brings and comes to, [`Load`] and [`Outcome`].
//!
//! What the bytes mean is not asked here, and nothing is stored here.
#![tactic(auto)]

mod blob;
mod bytes;
mod call;
mod laws;

pub use blob::Blob;
pub use bytes::Bytes;
pub use call::{Load, Outcome};
pub use laws::{calls_cross_threads, content_crosses_threads, content_has_a_digest};
