//! How the prefixes and the patterns of a lifecycle policy's rule match the tags of an image.
//!
//! It sees bytes and keeps nothing: what a tag or a pattern may look like is not asked here. Each test of a whole
//! list is counted, at no cost.
#![tactic(auto)]

#[cfg(test)]
mod examples;
mod matches;
mod tests;
mod wildcards;

pub use matches::{all_start, all_wild, starts};
pub use tests::Tests;
pub use wildcards::wild;
