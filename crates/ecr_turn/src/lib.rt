//! A lock of our own, whose passes know the one journal of what it guards.
//!
//! A [`Turnstile`] holds a state with a journal. A thread enters with its [`Pass`], waits for its turn, and leaves
//! with the pass again. The pass knows the entries that it has seen, and that others added what came later.
//! `specs/Turns.antt` has the rule, in seven points. Nothing is said of fairness, of deadlock or of time.
#![tactic(auto)]

mod bell;
mod board;
mod change;
mod crossing;
mod journal;
mod laws;
mod plays;
mod register;
mod steps;
#[cfg(test)]
mod tests;
mod turnstile;

pub use board::{Stage, View};
pub use crossing::turns_cross_threads;
pub use journal::Journal;
pub use laws::{
    a_turn_adds_its_own, others_add_none_of_mine, splits_rise, the_rule_is_the_seven_points,
    what_stood_stays,
};
pub use turnstile::{Pass, Turn, Turnstile};
