//! The JSON API's front: what the body of a request asks for, and replies as bytes (Amazon ECR API Reference; RFC
//! 8259).
//!
//! What may stand in a body is a table, a row for each member of each action. Nothing is kept here, and nothing is
//! decided of a repository.
#![tactic(auto)]

mod actions;
mod asked;
mod bodies;
mod calls;
mod domains;
mod head;
mod members;
mod read;
#[cfg(test)]
mod tests;
mod values;
mod write;

pub use asked::{ApiRefusal, Asked};
pub use read::{read_call, read_call_in};
pub use write::{write_refused, write_reply};
