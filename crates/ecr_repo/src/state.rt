// A repository's name with its journal.
ghost use Rattle.std.specs.Prelude.{◌≡◌, ◌≤◌, ◌<◌, ◌∷◌, ◌++◌, [], false, IfOk, OnOk, OnErr, length, vec_len, vec_capacity, if◌then◌else◌};
ghost use Rattle.ecr_model.specs.registry.Contents.{AreContents};
ghost use Rattle.ecr_model.specs.registry.Journals.{past};
ghost use Rattle.ecr_model.specs.registry.Steps.{Turn, IsSoundRepository, line_of};
ghost use Rattle.ecr_repo.specs.States.{AnswersOnly, Fits, unsealed_turn, reply_to, changes_repository, after_call};

use crate::cell::Cell;
use ecr_blob_upload::{Load, Outcome};
use ecr_model::{Act, Call, Entry, Limits, Line, Listed, Mem, Moment, Rare, RepoKey, SiteId};
use std::alloc::Global;
use std::marker::Model;

/// The state of a repository's name. Contracts see its name and site, the limits, and its journal, which is sound: what
/// the name has is what the journal leads to.
#[derive(Drop)]
pub struct RepoState {
    key: RepoKey,
    limits: Limits,
    cell: Cell,
    journal: Vec<Line>,
}

impl Model for RepoState {
    ghost use Rattle.ecr_repo.specs.Cells.{IsKept};
    ghost use Rattle.ecr_repo.specs.States.{State};

    ghost Value = { State };

    ghost view = { λ s. record { key = s.key; limits = s.limits; journal = s.journal.items } };

    // What the journal leads to is kept, so that no call goes over the journal.
    ghost invariant = { λ s. IsKept s.key s.limits s.journal.items s.cell };
}

impl RepoState {
    /// The state of a name that was never used: the repository is absent, and the journal is empty.
    pub fn new(alloc: Global, key: RepoKey, limits: Limits) -> RepoState
        ensures empty { result ≡ record { key = key; limits = limits; journal = [] } }
    {
        RepoState {
            key,
            limits,
            cell: Cell::new(),
            journal: Vec::new(alloc),
        }
    }

    /// The journal's lines, the first one first.
    pub fn journal(&self) -> &[Line]
        ensures lines { result.now ≡ self.now.journal }
    {
        self.journal.as_slice()
    }

    /// The number of the journal's entries.
    pub fn entries(&self) -> u64
        ensures count { result ≡ length self.now.journal }
    {
        self.journal.len() as u64
    }

    /// Answers a call that changes nothing, as any turn would now.
    pub fn answer(&self, alloc: Global, call: &Call) -> Result<Outcome, Mem>
        requires asks { AnswersOnly call.now }
        ensures reply { (turn : Turn) → IfOk result (λ out. out.reply ≡ reply_to self.now turn call.now) }
        ensures changed { IfOk result (λ out. out.changed ≡ false) }
        ensures contents { IfOk result (λ out. AreContents out.reply out.blobs.items) }
    {
        self.cell.answer(alloc, &self.key, call)
    }

    /// Answers a call in the turn of that ticket and moment, in seconds, and makes its change. Exactly where it changes
    /// the repository the journal has one line more, under the caller's number. After an `Err` nothing changed.
    ///
    /// Nothing goes over the journal, whose room doubles now and then.
    pub fn change(
        &mut self,
        alloc: Global,
        ticket: u64,
        caller: u64,
        call: &Call,
        load: Load,
        destinations: Vec<SiteId>,
        moment: Moment,
    ) -> Result<Outcome, Mem>
        // The turn is later than all that changed the repository.
        requires later { past self.old.journal ≤ ticket }
        requires fits { Fits call.now load destinations.items }
        ensures reply { IfOk result
            (λ out. out.reply ≡ reply_to self.old (unsealed_turn ticket moment destinations.items) call.now) }
        ensures changed { IfOk result
            (λ out. out.changed
            ≡ changes_repository self.old (unsealed_turn ticket moment destinations.items) call.now) }
        ensures contents { IfOk result (λ out. AreContents out.reply out.blobs.items) }
        ensures entered { OnOk result
            (self.new ≡ after_call self.old caller (unsealed_turn ticket moment destinations.items) call.now) }
        ensures err { OnErr result (self.new ≡ self.old) }
    {
        // All memory is taken before anything changes.
        make_room(&mut self.journal)?;
        let line = line_of(ticket, caller, call.clone()?, destinations, moment);
        let outcome = self.cell.change(alloc, &self.key, call, moment)?;
        enter(&mut self.journal, outcome.changed, line);
        Ok(outcome)
    }
}

/// The journal of every state is sound.
pub fn a_journal_is_sound(state: &RepoState)
    ensures sound { IsSoundRepository state.now.key state.now.limits state.now.journal }
{
    let _ = &state.journal;
}

// The line of a call in a turn.
fn line_of(ticket: u64, caller: u64, call: Call, destinations: Vec<SiteId>, moment: Moment) -> Line
    ensures { result ≡ line_of caller (unsealed_turn ticket moment destinations.items) call }
{
    Line {
        ticket,
        caller,
        entry: Entry {
            moment,
            act: Act::Called {
                call,
                destinations: Listed::from_vec(destinations),
                sealed: Rare::none(),
            },
        },
    }
}

// Takes the room for one more line. Most names have few, so the first line has room for itself alone.
fn make_room(journal: &mut Vec<Line>) -> Result<(), Mem>
    ensures room { OnOk result (vec_len journal.new < vec_capacity journal.new) }
    ensures kept { journal.new.items ≡ journal.old.items }
{
    if journal.is_empty() {
        journal.reserve_exact(1)
    } else {
        journal.reserve(1)
    }
}

// Adds the line where something changed, in room that was taken before.
fn enter(journal: &mut Vec<Line>, changed: bool, line: Line)
    requires { vec_len journal.old < vec_capacity journal.old }
    ensures { journal.new.items ≡ (if changed then journal.old.items ++ line ∷ [] else journal.old.items) }
{
    if changed {
        journal.push_reserved(line);
    }
}
