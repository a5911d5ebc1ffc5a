//! The state of one repository's name: what it has, and the journal of what changed it.
//!
//! [`RepoState`] answers and makes the calls on the repository one after another, and enters each change into its
//! journal. In whose turn a call is made isn't asked here, and which names and sites there are isn't known here.
#![tactic(auto)]

mod cell;
mod laws;
mod state;
#[cfg(test)]
mod tests;

pub use laws::{an_answer_changes_nothing, states_cross_threads, the_next_turn_is_later};
pub use state::{RepoState, a_journal_is_sound};
