//! The definitions at values that are written out by hand.
//!
//! A definition that is changed together with the code which it states passes every proof. Here each law has what
//! definitions come to at values from the public standards, or from this registry's tables where no standard says them,
//! and the check computes it. The functions do nothing: their contracts are the laws.
#![tactic(auto)]

mod facts;
mod heads;
mod json;
mod kept;
mod manifests;
mod names;
mod places;
mod policies;
mod refusals;
mod replies;
mod requests;
mod scripts;
mod sessions;
mod states;
mod streams;

pub use facts::{facts_hold, journals_are_sound, passes_are_read};
pub use heads::{bodies_are_delimited, clients_wait, fields_are_found, heads_end, sessions_close};
pub use json::{members_are_found, prefixes_are_marked, tags_are_matched, values_are_kept};
pub use kept::{calls_are_planned, journals_grow, states_are_kept};
pub use manifests::{
    descriptors_are_read, facts_are_told, manifests_are_refused, media_types_are_these,
    members_are_read,
};
pub use names::{
    digests_are_read, limits_are_these, names_have_their_form, sites_are_read, tags_are_read,
};
pub use places::places_are_compared;
pub use policies::{
    policies_are_read, rules_are_compared, rules_are_read, selections_are_read, values_are_read,
};
pub use refusals::{parameters_are_said, refusals_are_said, refused_parts_are_said};
pub use replies::{hosts_name_sites, replies_are_these};
pub use requests::{
    actions_are_these, calls_are_made, values_are_allowed, values_are_found, values_are_typed,
};
pub use scripts::{
    cells_are_apart, runs_are_counted, scripts_are_run, turns_are_made, views_are_read,
};
pub use sessions::{bodies_are_rendered, commands_end, requests_are_posed, sessions_are_written};
pub use states::{calls_are_decided, directories_are_read, journals_are_read};
pub use streams::{chunks_are_cut, streams_are_cut};
