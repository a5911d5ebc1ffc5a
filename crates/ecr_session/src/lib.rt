//! One session: the requests of a source are read, answered and replied to, one after another.
//!
//! [`session_still`] serves a session over any desk of one caller, any source, sink and clock. What a request poses,
//! what its turns come to and what is written of that is `ecr_model`'s to define; what is kept is the desk's.
#![tactic(auto)]

mod answer;
mod describe;
mod ending;
mod fixed;
mod host;
mod keeper;
mod session;
mod shared;
mod stages;
mod still;
mod turns;

pub use ending::{Mode, SessionEnd};
pub use shared::{LinkEnd, serve_link, serve_session};
pub use still::session_still;
