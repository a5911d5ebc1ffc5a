//! Rows by their births, in pages that are shared and copied on write.
//!
//! The row of birth b stands in page b / 256, without the rest. A page is owned, and may be written, or it is shared
//! by a counted reference, so that a snapshot takes one step per page and stays as it was. It stands on nothing, and
//! does not ask what a row is.
#![tactic(auto)]

mod book;
mod crossing;
#[cfg(test)]
mod examples;
mod laws;
mod page;
mod pages;
mod places;
mod reads;
mod snapshot;

pub use crossing::pages_cross_threads;
pub use laws::pages_are_computed;
pub use pages::Pages;
pub use reads::Reads;
pub use snapshot::Snapshot;
pub use std::alloc::AllocError as Mem;
