//! The desk of one caller in memory.
//!
//! [`SoloDesk`] keeps each site's directory and its repositories, and makes the turns of a call one after another: the
//! ticket of each is the number of entries of its cell. Every turn goes one way: the desk counts its entry, its site's
//! cells are looked up, the site's directory or one of its repositories is, and that state makes it. What a call on a
//! directory or a repository does isn't decided here.
#![tactic(auto)]

mod cells;
mod deed;
mod desk;
mod directory;
mod laws;
mod repository;
mod shared;
mod site_cells;
#[cfg(test)]
mod tests;

pub use desk::SoloDesk;
pub use laws::{desks_cross_threads, shared_desks_cross_threads};
pub use shared::desk::SharedDesk;
pub use shared::pass::DeskPass;
