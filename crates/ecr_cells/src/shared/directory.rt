// A site's directory behind a turnstile.
ghost use Rattle.std.specs.Prelude.{◌≡◌, ◌≤◌, [], None, IfOk, OnOk, OnErr, IfSome, option_map};
ghost use Rattle.ecr_model.specs.registry.Journals.{past};
ghost use Rattle.ecr_site.specs.States.{frame_of_journal};
ghost use Rattle.ecr_cells.specs.Deeds.{ask_of, HasContents};
ghost use Rattle.ecr_cells.specs.Doors.{frame_of_name, IsOpened, IsGiven, IsWanted, Hangs};
ghost use Rattle.ecr_cells.specs.Turns.{IsDirectoryTurn};

use crate::deed::{Deed, Done, refusal_of};
use crate::directory;
use crate::repository::{copy_of, copy_of_name};
use crate::shared::door::Door;
use crate::shared::repository::SharedRepository;
use ecr_model::{Limits, Mem, Name, RepoKey, SiteId};
use ecr_site::SiteState;
use ecr_turn::Journal;
use std::alloc::Global;
use std::collections::BTreeMap;
use std::marker::Model;
use std::sync::Wait;

/// A site's directory, with a door to each repository that a caller has asked for: those of callers are split from
/// these. Contracts see the directory, and what the doors know.
#[derive(Drop)]
pub(crate) struct SharedDirectory {
    limits: Limits,
    directory: SiteState,
    doors: BTreeMap<Name, Door>,
}

impl Model for SharedDirectory {
    ghost use Rattle.ecr_site.specs.States.{frame_of_journal};
    ghost use Rattle.ecr_cells.specs.Doors.{DirectoryAt, AreDoors};

    ghost Value = { DirectoryAt };

    ghost view = { λ d. record { directory = d.directory; doors = d.doors.entries } };

    ghost invariant = { λ d. AreDoors d.limits (frame_of_journal d.directory) d.doors.entries };
}

impl Journal for SharedDirectory {
    ghost use Rattle.ecr_site.specs.States.{frame_of_journal};
    ghost use Rattle.ecr_cells.specs.Doors.{frame_of_directory};

    ghost lines = { λ d. d.directory.journal };

    ghost frame = { λ d. frame_of_directory (frame_of_journal d.directory) };

    fn entries(&self) -> u64 {
        self.directory.entries()
    }
}

impl SharedDirectory {
    /// The directory of a site with no name, of a registry that serves these sites.
    pub(crate) fn new(
        alloc: Global,
        site: SiteId,
        served: Vec<SiteId>,
        limits: Limits,
    ) -> SharedDirectory
        ensures { result ≡ record {
          directory = record {
            site = site;
            served = served.items;
            limits = limits;
            journal = [];
          };
          doors = [];
        } }
    {
        SharedDirectory {
            limits,
            directory: SiteState::new(alloc, site, served, limits),
            doors: BTreeMap::new(alloc),
        }
    }

    /// Makes the turn of that ticket in the directory. A wanted repository whose name is registered then comes with a
    /// door, for which there may be no memory. Without memory for the turn the directory is as before.
    pub(crate) fn make<W: Wait>(
        &mut self,
        rt: &W,
        alloc: Global,
        ticket: u64,
        caller: u64,
        deed: Deed,
        wanted: Option<&RepoKey>,
    ) -> Result<(Done, Result<Option<Door>, Mem>), Mem>
        requires later { past self.old.directory.journal ≤ ticket }
        requires at { IfSome wanted (λ key. key.now.site ≡ self.old.directory.site) }
        ensures turned { IfOk result
            (λ t. IsDirectoryTurn self.old.directory self.new.directory ticket caller (ask_of deed) t.0) }
        ensures contents { IfOk result (λ t. HasContents t.0) }
        ensures given { IfOk result
            (λ t. IfOk t.1 (IsGiven (frame_of_journal self.old.directory) (option_map (λ k. k.now) wanted.entry) t.0)) }
        ensures err { OnErr result (self.new.directory ≡ self.old.directory) }
    {
        let done = directory::make(&mut self.directory, alloc, ticket, caller, deed)?;
        let door = match refusal_of(&done) {
            None => self.door_to(rt, alloc, wanted),
            Some(_) => Ok(None),
        };
        Ok((done, door))
    }

    // A door to the wanted repository.
    fn door_to<W: Wait>(
        &mut self,
        rt: &W,
        alloc: Global,
        wanted: Option<&RepoKey>,
    ) -> Result<Option<Door>, Mem>
        requires at { IfSome wanted (λ key. key.now.site ≡ self.old.directory.site) }
        ensures stays { self.new.directory ≡ self.old.directory }
        ensures given { IfOk result
            (IsWanted (frame_of_journal self.old.directory) (option_map (λ k. k.now) wanted.entry)) }
    {
        match wanted {
            Some(key) => {
                let door = self.give(rt, alloc, key)?;
                Ok(Some(door))
            }
            None => Ok(None),
        }
    }

    // A door to that repository, by a pass that has seen nothing: the first one that is asked for makes its turnstile.
    fn give<W: Wait>(&mut self, rt: &W, alloc: Global, key: &RepoKey) -> Result<Door, Mem>
        requires at { key.now.site ≡ self.old.directory.site }
        ensures stays { self.new.directory ≡ self.old.directory }
        ensures given { IfOk result (IsOpened (frame_of_name (frame_of_journal self.old.directory) key.now.name)) }
    {
        match self.doors.get_mut(&key.name) {
            Some(door) => door.another(rt),
            None => self.open(rt, alloc, key),
        }
    }

    // Makes the turnstile of a repository.
    fn open<W: Wait>(&mut self, rt: &W, alloc: Global, key: &RepoKey) -> Result<Door, Mem>
        requires at { key.now.site ≡ self.old.directory.site }
        ensures stays { self.new.directory ≡ self.old.directory }
        ensures given { IfOk result (IsOpened (frame_of_name (frame_of_journal self.old.directory) key.now.name)) }
    {
        let name = copy_of_name(&key.name)?;
        let copy = copy_of(key)?;
        let repository = SharedRepository::new(alloc, copy, self.limits, &self.directory)?;
        let mut first = Door::new(alloc, repository)?;
        let given = first.another(rt)?;
        hang(&mut self.doors, name, first)?;
        Ok(given)
    }
}

/// Adds the door of a name.
pub(crate) fn hang(doors: &mut BTreeMap<Name, Door>, name: Name, door: Door) -> Result<(), Mem>
    ensures hung { OnOk result (Hangs doors.old.entries doors.new.entries name door) }
    ensures err { OnErr result (doors.new.entries ≡ doors.old.entries) }
{
    doors.insert(name, door)?;
    Ok(())
}
