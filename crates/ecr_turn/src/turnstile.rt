// Entering, and leaving.
ghost use Rattle.std.specs.Prelude.{◌≡◌, ◌<◌, ◌≤◌, ◌+◌, ◌≢◌, ◌⊎◌, max, [], ◌∷◌, IfOk, IfErr, length, None};
ghost use Rattle.ecr_turn.specs.declared.board.Stage.TheVariants.{Holds};
ghost use Rattle.ecr_model.specs.registry.Growth.{Each, Grows, Follows, Rises};
ghost use Rattle.ecr_turn.specs.Journals.{MayFollow, IsBeginning, longer_of};
ghost use Rattle.ecr_turn.specs.Passes.{first_pass, IsSamePass, IsAsWise, IsNewCaller};
ghost use Rattle.ecr_turn.specs.Seats.{known_of};

use crate::bell::Bell;
use crate::board::{Board, Place};
use crate::journal::Journal;
use crate::steps::{absorb, draw, fork, one_slot, out_of_slot, pass_on, take};
use atomic_table::{Refused, Table};
use ecr_model::Mem;
use std::alloc::Global;
use std::marker::Model;
use std::snapshot::Snapshot;
use std::sync::Wait;

/// A state that is entered in turns. Contracts see which one it is, and what is fixed throughout its journal.
#[derive(Drop)]
pub struct Turnstile<S: Journal> {
    board: Board<S>,
    pub(crate) bell: Bell,
}

impl<S: Journal> Model for Turnstile<S> {
    ghost use Rattle.std.specs.Prelude.{◌≡◌};
    ghost use Rattle.ecr_turn.specs.Passes.{Gate};

    ghost Value = { Gate };

    ghost view = { λ t. record { table = t.board.shared.table_id; frame = S.frame t.board.shared.key.value } };

    ghost invariant = { λ t. t.board.shared.table_id.words ≡ 4 };
}

/// The right to enter one turnstile. Contracts see what its holder knows: the turnstile, the number of its caller, how
/// many callers' numbers are given out, one more than the last ticket that it knows to be passed on, and the journal
/// that it has seen.
#[derive(Drop)]
pub struct Pass<S: Journal> {
    seat: Place<S>,
    caller: u64,
}

impl<S: Journal> Model for Pass<S> {
    ghost use Rattle.std.specs.Prelude.{◌≡◌, ◌<◌};
    ghost use Rattle.ecr_turn.specs.Passes.{Known};

    ghost Value = { Known };

    ghost use Rattle.ecr_turn.specs.Seats.{known_of, IsAtRest};

    ghost view = { λ p. known_of p.seat };

    ghost invariant = { λ p. IsAtRest p.seat × (p.caller ≡ p.seat.me.0.caller) × (p.caller < p.seat.me.0.callers) };
}

// What a turn keeps beside the state.
struct Held<'a, S: Journal> {
    board: &'a Board<S>,
    bell: &'a Bell,
    seat: Place<S>,
    ticket: u64,
    caller: u64,
    count: u64,
    ghost numbered: { caller ≡ seat.me.0.caller },
    ghost known: { caller < seat.me.0.callers },
    ghost of: { (seat.table_id ≡ board.now.shared.table_id) × (board.now.shared.table_id.words ≡ 4) },
    ghost holds: { seat.me.0.stage ≡ Holds ticket },
    ghost hand: { seat.me.1 ≡ (0, None) ∷ [] },
    ghost counted: { count ≡ length seat.me.0.seen },
}

/// A turn, until [`Turn::leave`]. Contracts see its pass, its ticket and the state.
pub struct Turn<'a, S: Journal> {
    held: Held<'a, S>,
    pub(crate) state: Box<S, Global>,
}

impl<'a, S: Journal> Model for Turn<'a, S> {
    ghost use Rattle.ecr_turn.specs.Passes.{TurnOf};

    ghost Value = { TurnOf S };

    ghost use Rattle.ecr_turn.specs.Seats.{known_of};

    ghost view = { λ t. record { pass = known_of t.held.seat; ticket = t.held.ticket; state = t.state.value } };
}

impl<S: Journal> Turnstile<S> {
    /// A turnstile with this state, whose journal is empty, and its first pass.
    pub fn new(alloc: Global, state: S) -> Result<(Turnstile<S>, Pass<S>), (S, Mem)>
        requires fresh { S.lines state ≡ [] }
        ensures frame { IfOk result (λ r. r.0.frame ≡ S.frame state) }
        ensures pass { IfOk result (λ r. r.1 ≡ first_pass r.0) }
        ensures err { IfErr result (λ e. e.0 ≡ state) }
    {
        let about = Snapshot::of(&state);
        let slots = one_slot(alloc, state)?;
        let words: [u64; 4] = [0, 0, 0, 1];
        let made: Result<(Board<S>, Place<S>), Refused<Option<Box<S, Global>>, Global>> =
            Table::new(alloc, &words, slots, &about);
        match made {
            Ok((board, seat)) => {
                let bell = Bell::new();
                Ok((Turnstile { board, bell }, Pass { seat, caller: 0 }))
            }
            Err(refused) => {
                let Refused { slots } = refused;
                Err((out_of_slot(slots), Mem))
            }
        }
    }

    /// Waits for a turn. What the pass hasn't seen before is of others, and has no ticket below its `past`.
    pub fn enter<'a, R: Wait>(&'a self, rt: &R, pass: Pass<S>) -> Turn<'a, S>
        requires of { pass.gate ≡ self.now }
        ensures pass { IsSamePass pass result.pass × (result.pass.past ≡ pass.past) }
        ensures frame { S.frame result.state ≡ self.now.frame }
        ensures fresh { pass.past ≤ result.ticket }
        ensures seen { result.pass.seen ≡ S.lines result.state }
        ensures grows { Grows pass.caller pass.past pass.seen (S.lines result.state) }
        ensures below { Rises 0 (S.lines result.state) result.ticket }
    {
        let (board, bell) = (&self.board, &self.bell);
        let Pass { mut seat, caller } = pass;
        let ticket = draw(board, bell, rt, &mut seat);
        let state = take(board, rt, &mut seat, ticket);
        let count = state.entries();
        let held = Held {
            board,
            bell,
            seat,
            ticket,
            caller,
            count,
        };
        Turn { held, state }
    }

    /// A pass for another caller, who begins with what this one has seen. Its caller's number is neither this one's
    /// nor that of an entry which this one has seen, and it is above those of all that were split from this one before.
    pub fn split<R: Wait>(&self, rt: &R, pass: &mut Pass<S>) -> Result<Pass<S>, Mem>
        requires of { pass.old.gate ≡ self.now }
        ensures kept { pass.new ≡ record pass.old { callers = pass.new.callers } }
        ensures onward { pass.old.callers ≤ pass.new.callers }
        ensures given { IfOk result (λ p. IsAsWise pass.old p) }
        ensures new { IfOk result (λ p. (p.caller ≢ pass.old.caller) × Each (λ l. l.caller ≢ p.caller) pass.old.seen) }
        ensures next { IfOk result (λ p. IsNewCaller pass.old pass.new p) }
    {
        let (caller, seat) = fork(&self.board, rt, &mut pass.seat);
        Ok(Pass { seat, caller })
    }

    /// Takes in what another pass has seen: the pass has then seen the longer of the two journals, and has the greater
    /// `past` and number of callers.
    pub fn join(&self, pass: &mut Pass<S>, other: Pass<S>)
        requires of { (pass.old.gate ≡ self.now) × (other.gate ≡ self.now) }
        ensures pass { IsSamePass pass.old pass.new × (pass.new.past ≡ max pass.old.past other.past) }
        ensures callers { pass.new.callers ≡ max pass.old.callers other.callers }
        ensures seen { pass.new.seen ≡ longer_of pass.old.seen other.seen }
        ensures ordered { IsBeginning pass.old.seen other.seen ⊎ IsBeginning other.seen pass.old.seen }
        ensures grows { Grows pass.old.caller pass.old.past pass.old.seen pass.new.seen }
        ensures follows { Follows other.past other.seen pass.new.seen }
    {
        let Pass { seat, caller: _ } = other;
        absorb(&self.board, &mut pass.seat, seat);
    }
}

impl<S: Journal> Pass<S> {
    /// The number of its caller, by which the entries of its turns go.
    pub fn caller(&self) -> u64
        ensures caller { result ≡ self.now.caller }
        ensures known { result < self.now.callers }
    {
        self.caller
    }
}

impl<'a, S: Journal> Turn<'a, S> {
    /// The ticket, which is above those of all entries that the turn began with.
    pub fn ticket(&self) -> u64
        ensures ticket { result ≡ self.now.ticket }
    {
        self.held.ticket
    }

    /// The state.
    pub fn value(&self) -> &S
        ensures value { result.now ≡ self.now.state }
    {
        &self.state
    }

    /// Ends the turn, and gives the pass back.
    pub fn leave(self) -> Pass<S>
        requires frame { S.frame self.state ≡ self.pass.gate.frame }
        requires journal { MayFollow self.ticket self.pass.caller self.pass.seen (S.lines self.state) }
        ensures pass { IsSamePass self.entry.pass result × (result.past ≡ self.entry.ticket + 1) }
        ensures seen { result.seen ≡ S.lines self.entry.state }
    {
        let Turn { held, state } = self;
        let Held {
            board,
            bell,
            mut seat,
            ticket,
            caller,
            count,
        } = held;
        let grown = state.entries() != count;
        let empty = board.shared.exchange(&mut seat, 0, Some(state));
        let None = empty else { unreachable!() };
        pass_on(board, bell, &mut seat, ticket, grown);
        Pass { seat, caller }
    }
}
