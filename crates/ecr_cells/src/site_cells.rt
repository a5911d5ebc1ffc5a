// The cells of a site.
ghost use Rattle.std.specs.Prelude.{◌≡◌, [], None, IfOk, OnErr, length};
ghost use Rattle.ecr_model.specs.declared.registry.journal.CellKey.TheVariants.{Directory, Repository};
ghost use Rattle.ecr_cells.specs.Deeds.{ask_of, changes, told_of, FitsDeed, HasContents};
ghost use Rattle.ecr_model.specs.registry.Journals.{past};
ghost use Rattle.ecr_cells.specs.SiteCells.{site_of_cell, state_of_name, IsNextTurn, IsQuiet, IsTurn};

use crate::deed::{Deed, Done, changes};
use crate::directory;
use crate::repository::{RepositoryCell, copy_of, copy_of_name, put};
use ecr_model::{CellKey, Limits, Mem, Name, Place, RepoKey, SiteId};
use ecr_site::SiteState;
use std::alloc::Global;
use std::collections::BTreeMap;
use std::marker::Model;

/// The cells of a site: its directory, and the repositories that had a turn. The journal of any other is empty.
#[derive(Drop)]
pub(crate) struct SiteCells {
    limits: Limits,
    directory: SiteState,
    repositories: BTreeMap<Name, RepositoryCell>,
}

impl Model for SiteCells {
    ghost use Rattle.ecr_cells.specs.SiteCells.{Site, AreOfSite};

    ghost Value = { Site };

    ghost view = { λ s. record { directory = s.directory; repositories = s.repositories.entries } };

    // So the number of a journal's entries is its next ticket.
    ghost invariant = { λ s. AreOfSite s.limits s.directory s.repositories.entries };
}

impl SiteCells {
    /// A site with no name, of a registry that serves these sites.
    pub(crate) fn new(alloc: Global, site: SiteId, served: Vec<SiteId>, limits: Limits) -> SiteCells
        ensures { result ≡ record {
          directory = record {
            site = site;
            served = served.items;
            limits = limits;
            journal = [];
          };
          repositories = [];
        } }
    {
        SiteCells {
            limits,
            directory: SiteState::new(alloc, site, served, limits),
            repositories: BTreeMap::new(alloc),
        }
    }

    /// Makes the next turn in a cell of the site. Without memory no journal changed.
    pub(crate) fn make(
        &mut self,
        alloc: Global,
        cell: CellKey,
        deed: Deed,
    ) -> Result<(Done, Place), Mem>
        requires at { self.old.directory.site ≡ site_of_cell cell }
        requires fits { FitsDeed deed }
        ensures turned { IfOk result (λ t. IsTurn self.old self.new cell (ask_of deed) (told_of t.0) t.1) }
        ensures contents { IfOk result (λ t. HasContents t.0) }
        ensures err { OnErr result (IsQuiet self.old self.new) }
    {
        match cell {
            CellKey::Directory(site) => self.in_directory(alloc, site, deed),
            CellKey::Repository(key) => self.in_repository(alloc, key, deed),
        }
    }

    // Makes the next turn in the directory.
    fn in_directory(
        &mut self,
        alloc: Global,
        site: SiteId,
        deed: Deed,
    ) -> Result<(Done, Place), Mem>
        requires at { self.old.directory.site ≡ site }
        ensures turned { IfOk result (λ t. IsTurn self.old self.new (Directory site) (ask_of deed) (told_of t.0) t.1) }
        ensures contents { IfOk result (λ t. HasContents t.0) }
        ensures err { OnErr result (self.new ≡ self.old) }
    {
        let ticket = self.directory.entries();
        let done = directory::make(&mut self.directory, alloc, ticket, 0, deed)?;
        let place = placed(CellKey::Directory(site), ticket, &done);
        Ok((done, place))
    }

    // Makes the next turn in a repository.
    fn in_repository(
        &mut self,
        alloc: Global,
        key: RepoKey,
        deed: Deed,
    ) -> Result<(Done, Place), Mem>
        requires at { self.old.directory.site ≡ key.site }
        requires fits { FitsDeed deed }
        ensures turned { IfOk result (λ t. IsTurn self.old self.new (Repository key) (ask_of deed) (told_of t.0) t.1) }
        ensures contents { IfOk result (λ t. HasContents t.0) }
        ensures err { OnErr result (IsQuiet self.old self.new) }
    {
        match self.repositories.get_mut(&key.name) {
            Some(cell) => next_in(cell, alloc, key, deed),
            None => self.in_new(alloc, key, deed),
        }
    }

    // Makes the first turn in a repository, which is kept from then on where there is memory for it and the turn.
    fn in_new(&mut self, alloc: Global, key: RepoKey, deed: Deed) -> Result<(Done, Place), Mem>
        requires at { self.old.directory.site ≡ key.site }
        requires fits { FitsDeed deed }
        requires absent { state_of_name self.old.repositories key.name ≡ None }
        ensures turned { IfOk result (λ t. IsTurn self.old self.new (Repository key) (ask_of deed) (told_of t.0) t.1) }
        ensures contents { IfOk result (λ t. HasContents t.0) }
        ensures err { OnErr result (self.new ≡ self.old) }
    {
        let name = copy_of_name(&key.name)?;
        let mut cell = RepositoryCell::new(alloc, copy_of(&key)?, self.limits)?;
        let done = next_in(&mut cell, alloc, key, deed)?;
        put(&mut self.repositories, name, cell)?;
        Ok(done)
    }
}

// Makes the next turn in the repository.
fn next_in(
    cell: &mut RepositoryCell,
    alloc: Global,
    key: RepoKey,
    deed: Deed,
) -> Result<(Done, Place), Mem>
    requires key { cell.old.key ≡ key }
    requires fits { FitsDeed deed }
    requires numbered { past cell.old.journal ≡ length cell.old.journal }
    ensures turned { IfOk result (λ t. IsNextTurn cell.old cell.new (ask_of deed) (told_of t.0) t.1) }
    ensures contents { IfOk result (λ t. HasContents t.0) }
    ensures stays { (cell.new.key ≡ cell.old.key) × (cell.new.limits ≡ cell.old.limits) }
    ensures numbered { past cell.new.journal ≡ length cell.new.journal }
    ensures err { OnErr result (cell.new ≡ cell.old) }
{
    let ticket = cell.entries();
    let done = cell.make(alloc, ticket, 0, deed)?;
    let place = placed(CellKey::Repository(key), ticket, &done);
    Ok((done, place))
}

/// The place of a turn with that answer.
pub(crate) fn placed(cell: CellKey, ticket: u64, done: &Done) -> Place
    ensures { result ≡ record { cell = cell; ticket = ticket; changed = changes done.now } }
{
    Place {
        cell,
        ticket,
        changed: changes(done),
    }
}
