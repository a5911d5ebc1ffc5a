//! A site's directory: the names of its repositories, with the journal of their registrations.
//!
//! It keeps each name once, in the order of the bytes, and a line for each name. A call on the directory is answered by
//! [`SiteState::answer`]. Which names are well formed, and when
//! a line is entered, isn't asked here.
#![tactic(auto)]

mod laws;
mod page;
mod state;
#[cfg(test)]
mod tests;

pub use ecr_model::Registered;
pub use laws::states_cross_threads;
pub use state::{SiteState, a_journal_is_sound};
