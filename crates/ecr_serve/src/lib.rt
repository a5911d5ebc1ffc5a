//! The commands of the registry.
//!
//! [`solo`] runs a command for one caller, over any source, sink and clock: it answers the requests that come and
//! writes the replies. [`serve`] runs one for many, over any acceptor of links: each link is a session of its own over
//! one registry. What is asked, answered and written is `ecr_model`'s to define.
#![tactic(auto)]

mod command;
mod server;
mod server_words;
mod words;
mod workers;

pub use command::{Ended, solo};
pub use server::serve;
