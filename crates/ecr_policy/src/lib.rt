//! Lifecycle policies are read from their text (Amazon ECR User Guide, lifecycle policies).
//!
//! `read` gives the policy that `ecr_model` defines, or the first cause that the text isn't one. What a policy
//! chooses isn't asked here.
#![tactic(auto)]

mod clashes;
mod compared;
mod json;
mod marked;
mod order;
mod reading;
mod refusal;
mod rules;
mod selection;
#[cfg(test)]
mod tests;

pub use reading::read;
pub use refusal::PolicyRefusal;
