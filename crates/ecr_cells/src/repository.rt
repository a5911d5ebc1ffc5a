// A turn in a repository.
ghost use Rattle.std.specs.Prelude.{◌≡◌, ◌≤◌, [], IfOk, OnOk, OnErr, length};
ghost use Rattle.ecr_model.specs.registry.Journals.{past};
ghost use Rattle.ecr_cells.specs.Deeds.{ask_of, FitsDeed, HasContents};
ghost use Rattle.ecr_cells.specs.SiteCells.{Puts};
ghost use Rattle.ecr_cells.specs.Turns.{IsRepositoryTurn};

use crate::deed::{Deed, Done};
use ecr_model::{Limits, Mem, Name, RepoKey};
use ecr_repo::{RepoState, a_journal_is_sound};
use std::alloc::Global;
use std::collections::BTreeMap;
use std::marker::Model;

/// A repository, in memory of its own: so a map of them has small nodes, and moves no more than a pointer. Contracts
/// see the repository's state.
#[derive(Drop)]
pub(crate) struct RepositoryCell {
    state: Box<RepoState>,
}

impl Model for RepositoryCell {
    ghost use Rattle.std.specs.Prelude.{box_value};
    ghost use Rattle.ecr_repo.specs.States.{State};

    ghost Value = { State };

    ghost view = { λ r. box_value r.state };
}

impl RepositoryCell {
    /// The repository of a name that was never used.
    pub(crate) fn new(alloc: Global, key: RepoKey, limits: Limits) -> Result<RepositoryCell, Mem>
        ensures { IfOk result (λ cell. cell ≡ record { key = key; limits = limits; journal = [] }) }
    {
        match Box::new(alloc, RepoState::new(alloc, key, limits)) {
            Ok(state) => Ok(RepositoryCell { state }),
            Err(_) => Err(Mem),
        }
    }

    /// The number of the repository's entries.
    pub(crate) fn entries(&self) -> u64
        ensures { result ≡ length self.now.journal }
    {
        self.state.entries()
    }

    /// Makes the turn of that ticket in the repository, as [`make`] does.
    pub(crate) fn make(
        &mut self,
        alloc: Global,
        ticket: u64,
        caller: u64,
        deed: Deed,
    ) -> Result<Done, Mem>
        requires later { past self.old.journal ≤ ticket }
        requires fits { FitsDeed deed }
        ensures turned { IfOk result (λ done. IsRepositoryTurn self.old self.new ticket caller (ask_of deed) done) }
        ensures contents { IfOk result (λ done. HasContents done) }
        ensures err { OnErr result (self.new ≡ self.old) }
    {
        make(&mut *self.state, alloc, ticket, caller, deed)
    }
}

/// Makes the turn of that ticket in the repository, under that caller's number. Without memory nothing changed.
///
/// The ticket is above all in the journal.
pub(crate) fn make(
    state: &mut RepoState,
    alloc: Global,
    ticket: u64,
    caller: u64,
    deed: Deed,
) -> Result<Done, Mem>
    requires later { past state.old.journal ≤ ticket }
    requires fits { FitsDeed deed }
    ensures turned { IfOk result (λ done. IsRepositoryTurn state.old state.new ticket caller (ask_of deed) done) }
    ensures contents { IfOk result (λ done. HasContents done) }
    ensures err { OnErr result (state.new ≡ state.old) }
{
    a_journal_is_sound(state);
    match deed {
        Deed::OnRepository { call, load, moment } => {
            let nowhere = Vec::new(alloc);
            let outcome = state.change(alloc, ticket, caller, &call, load, nowhere, moment)?;
            Ok(Done::Replied(outcome))
        }
        Deed::Knows(_) => Ok(Done::Nothing),
        Deed::Register(_) => Ok(Done::Nothing),
        Deed::OnSite(_) => Ok(Done::Nothing),
    }
}

/// A copy of the key.
pub(crate) fn copy_of(key: &RepoKey) -> Result<RepoKey, Mem>
    ensures { IfOk result (λ copy. copy ≡ key.now) }
{
    key.clone()
}

/// A copy of the name.
pub(crate) fn copy_of_name(name: &Name) -> Result<Name, Mem>
    ensures { IfOk result (λ copy. copy ≡ name.now) }
{
    name.clone()
}

/// Adds the repository of a name.
pub(crate) fn put(
    repositories: &mut BTreeMap<Name, RepositoryCell>,
    name: Name,
    cell: RepositoryCell,
) -> Result<(), Mem>
    ensures put { OnOk result (Puts repositories.old.entries repositories.new.entries name cell) }
    ensures err { OnErr result (repositories.new.entries ≡ repositories.old.entries) }
{
    repositories.insert(name, cell)?;
    Ok(())
}
