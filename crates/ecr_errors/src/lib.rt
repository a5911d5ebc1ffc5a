//! What is said of a refusal, as the body of its reply, and the reply where there is no memory for another.
//!
//! The texts stand here alone; why a call is refused is decided elsewhere, and a reply's head is written elsewhere.
#![tactic(auto)]

mod body;
mod digests;
mod fixed;
mod message;
mod parameter;
#[cfg(test)]
mod tests;
mod text;

pub use body::refusal_body;
pub use fixed::fixed_500;
