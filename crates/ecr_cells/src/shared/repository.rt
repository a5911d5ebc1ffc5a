// A repository behind a turnstile.
ghost use Rattle.std.specs.Prelude.{◌≡◌, ◌≤◌, [], IfOk, OnErr};
ghost use Rattle.ecr_model.specs.registry.Journals.{past};
ghost use Rattle.ecr_cells.specs.Deeds.{ask_of, FitsDeed, HasContents};
ghost use Rattle.ecr_cells.specs.Turns.{IsRepositoryTurn};

use crate::deed::{Deed, Done};
use crate::repository::RepositoryCell;
use ecr_model::{Limits, Mem, RepoKey};
use ecr_site::SiteState;
use ecr_turn::Journal;
use std::alloc::Global;
use std::marker::Model;
use std::snapshot::Snapshot;

/// A repository with what is fixed throughout its journal. Contracts see its state and the served sites.
#[derive(Drop)]
pub(crate) struct SharedRepository {
    cell: RepositoryCell,
    directory: Snapshot<SiteState>,
}

impl Model for SharedRepository {
    ghost use Rattle.ecr_cells.specs.Doors.{RepositoryAt};

    ghost Value = { RepositoryAt };

    ghost view = { λ r. record { state = r.cell; served = r.directory.value.served } };
}

impl Journal for SharedRepository {
    ghost use Rattle.ecr_cells.specs.Doors.{frame_of_repository};

    ghost lines = { λ r. r.state.journal };

    ghost frame = { frame_of_repository };

    fn entries(&self) -> u64 {
        self.cell.entries()
    }
}

impl SharedRepository {
    /// The repository of a name that was never used, at the site of that directory.
    pub(crate) fn new(
        alloc: Global,
        key: RepoKey,
        limits: Limits,
        directory: &SiteState,
    ) -> Result<SharedRepository, Mem>
        ensures { IfOk result
            (λ r. r ≡ record {
              state = record { key = key; limits = limits; journal = [] };
              served = directory.now.served;
            }) }
    {
        let cell = RepositoryCell::new(alloc, key, limits)?;
        let directory = Snapshot::of(directory);
        Ok(SharedRepository { cell, directory })
    }

    /// Makes the turn of that ticket in the repository. Without memory nothing changed.
    pub(crate) fn make(
        &mut self,
        alloc: Global,
        ticket: u64,
        caller: u64,
        deed: Deed,
    ) -> Result<Done, Mem>
        requires later { past self.old.state.journal ≤ ticket }
        requires fits { FitsDeed deed }
        ensures turned { IfOk result
            (λ done. IsRepositoryTurn self.old.state self.new.state ticket caller (ask_of deed) done) }
        ensures served { self.new.served ≡ self.old.served }
        ensures contents { IfOk result (λ done. HasContents done) }
        ensures err { OnErr result (self.new ≡ self.old) }
    {
        self.cell.make(alloc, ticket, caller, deed)
    }
}
