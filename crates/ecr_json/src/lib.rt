//! JSON for whoever speaks it: texts that are read thinly, the members of a value, base64 in a text, and objects that
//! are written (RFC 8259; RFC 4648, section 4).
//!
//! A text is read by the names of members, as `serde_json` reads it, and what isn't named takes no memory. A member
//! that is null counts as absent. It keeps nothing.
#![tactic(auto)]

mod blob;
mod builder;
#[cfg(test)]
mod examples;
mod field;
mod members;
mod number;
mod skip;
mod thin;

pub use blob::decode_blob;
pub use builder::Builder;
pub use field::Field;
pub use members::{list, object, text, truth, whole};
pub use std::alloc::AllocError as Mem;
pub use thin::read_thin;
