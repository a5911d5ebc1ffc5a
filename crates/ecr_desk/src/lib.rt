//! The desk: the calls by which a registry is used, whoever keeps it.
//!
//! What a call does is the turns of a script over the journals of the cells, which `ecr_model` defines; the contracts
//! here say nothing else of what keeps them. An [`AnyDesk`] tells what its caller has seen, be it alone or one among
//! many. A [`StillDesk`] has one caller, whose turns follow one another, so that each call is a run of its script.
#![tactic(auto)]

mod answers;
mod any;
mod at_desk;
mod desk;
mod still;

pub use answers::{Answer, SiteAnswer};
pub use any::AnyDesk;
pub use at_desk::AtDesk;
pub use desk::{Desk, Seen};
pub use still::StillDesk;
