//! Each public function that may answer that there is no memory, where there is plenty of it.
//!
//! No clause says why memory was wanting, so a body that answers so for another reason is proved too. Here each of these
//! functions is run on tables of cases, its refusals and its largest inputs among them, and none may answer so. There are
//! tests alone.
#![tactic(auto)]

#[cfg(test)]
mod bodies;
#[cfg(test)]
mod content;
#[cfg(test)]
mod desks;
#[cfg(test)]
mod documents;
#[cfg(test)]
mod fixtures;
#[cfg(test)]
mod messages;
#[cfg(test)]
mod names;
#[cfg(test)]
mod states;
