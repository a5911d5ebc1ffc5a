// The table below a turnstile. Word 0 is the number of entries, word 1 the next ticket, word 2 the ticket that is
// served, and word 3 the next caller number. The one slot has the state.
use crate::journal::Journal;
use atomic_table::{Seat, Table, TableRule};
use ecr_model::{Frame, Line};
use std::alloc::Global;
use std::collections::LinkedList;
use std::marker::PhantomData;
use std::snapshot::Snapshot;

/// Where a pass stands. A number is a ticket, and at `Named` the number of a caller to come.
pub enum Stage {
    /// In no turn.
    Idle,
    /// It has drawn the ticket.
    Waits(u64),
    /// It is in the ticket's turn, and hasn't looked at this journal of the state yet.
    Found(u64, LinkedList<Line>),
    /// It is in the ticket's turn.
    Holds(u64),
    /// It is in the ticket's turn, and its entry is counted.
    Recorded(u64),
    /// It has drawn the number of a caller to come.
    Named(u64),
    /// Another pass was joined to it: that one's `past`, and what it had seen.
    Joined(u64, LinkedList<Line>),
    /// It was joined to another.
    Spent,
}

/// What a pass knows. No value of it is made.
pub struct View {
    pub stage: Stage,
    /// The number of its caller.
    pub caller: u64,
    /// How many callers' numbers are given out, as far as it knows.
    pub callers: u64,
    /// One more than the last ticket that it passed on.
    pub past: u64,
    /// The journal that it has seen.
    pub seen: LinkedList<Line>,
    /// What is fixed throughout it.
    pub frame: Frame,
}

/// The rule of the table.
pub struct InTurn<S> {
    state: PhantomData<S>,
}

impl<S: Journal> TableRule<Option<Box<S, Global>>, View, Snapshot<S>> for InTurn<S> {
    ghost use Rattle.ecr_turn.specs.Rule.{Kept, newcomer};

    ghost holds = { λ key. Kept (λ b. S.lines b.value) (λ b. S.frame b.value) (S.frame key.value) };

    ghost first = { λ key. newcomer (S.frame key.value) };
}

/// The table of a turnstile over the state.
pub type Board<S> = Table<Option<Box<S, Global>>, View, Snapshot<S>, InTurn<S>, Global>;

/// A pass's place in it.
pub type Place<S> = Seat<Option<Box<S, Global>>, View>;
