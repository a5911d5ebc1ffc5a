//! Reads requests from a source, and writes replies to a sink (HTTP/1.1, RFC 9112).
//!
//! A [`Reader`] gives the requests of a source one after another, however its bytes are cut into pieces, and tells a
//! client to go on where it waits for that. What is a request is `ecr_model`'s to define. Nothing here knows of
//! registries.
#![tactic(auto)]

mod body;
mod buffer;
mod chunk_line;
mod chunks;
mod empty;
mod events;
mod fault;
mod fields;
mod framing;
mod head;
mod intake;
mod next;
mod next_head;
mod reader;
mod reply;
mod write;

pub use empty::{connection_line, write_empty};
pub use events::Event;
pub use framing::{closes, path_of};
pub use reader::Reader;
pub use reply::HttpReply;
pub use write::{Sent, send};
