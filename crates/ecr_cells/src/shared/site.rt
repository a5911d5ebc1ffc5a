// A caller's passes at a site.
ghost use Rattle.std.specs.Prelude.{◌≡◌, ◌⊎◌, [], None, Some, IfOk, OnErr, IfSome, IsSome, option_map};
ghost use Rattle.ecr_model.specs.declared.registry.journal.CellKey.TheVariants.{Directory};
ghost use Rattle.ecr_model.specs.registry.Views.{ExtendsView};
ghost use Rattle.ecr_cells.specs.Deeds.{ask_of, told_of, refusal_of, FitsDeed, HasContents};
ghost use Rattle.ecr_cells.specs.SiteCells.{site_of_cell};
ghost use Rattle.ecr_cells.specs.Splits.{IsSplitSite, SiteStays};
ghost use Rattle.ecr_cells.specs.Doors.{IsOpened, Visited, door_at, frame_of_name, site_frame_of, realm_of_frame, view_of};
ghost use Rattle.ecr_cells.specs.Shared.{IsWay, Enters, Peers, lacking};

use crate::deed::{Deed, Done};
use crate::repository::copy_of_name;
use crate::shared::directory::{SharedDirectory, hang};
use crate::shared::door::Door;
use crate::shared::doors::split_doors;
use crate::shared::pause::Pause;
use crate::site_cells::placed;
use ecr_model::{CellKey, Mem, Name, Place, RepoKey, SiteId};
use ecr_turn::{Pass, Turnstile};
use std::alloc::Global;
use std::collections::BTreeMap;
use std::marker::Model;
use std::sync::Wait;

/// What a caller has of a site: the pass to its directory, which is away only in a turn, and a door to each repository
/// in which it had a turn. Contracts see what these know.
#[derive(Drop)]
pub(crate) struct SitePass {
    pass: Option<Pass<SharedDirectory>>,
    doors: BTreeMap<Name, Door>,
}

impl Model for SitePass {
    ghost use Rattle.std.specs.Prelude.{IsSome};
    ghost use Rattle.ecr_turn.specs.Passes.{known_in};
    ghost use Rattle.ecr_cells.specs.Doors.{site_frame_of};
    ghost use Rattle.ecr_cells.specs.Shared.{SiteKnown, AreDoorsOfSite};

    ghost Value = { SiteKnown };

    ghost view = { λ s. record { directory = known_in s.pass; doors = s.doors.entries } };

    ghost invariant = { λ s. IsSome s.pass
        × AreDoorsOfSite (site_frame_of (known_in s.pass).gate.frame) s.doors.entries };
}

impl SitePass {
    /// What a caller has of a site at first: a pass to its directory.
    pub(crate) fn new(alloc: Global, pass: Pass<SharedDirectory>) -> SitePass
        ensures { result ≡ record { directory = pass; doors = [] } }
    {
        SitePass {
            pass: Some(pass),
            doors: BTreeMap::new(alloc),
        }
    }

    /// What another caller has of the site, who begins with what this one has seen.
    pub(crate) fn split<W: Wait>(
        &mut self,
        turnstile: &Turnstile<SharedDirectory>,
        rt: &W,
        alloc: Global,
    ) -> Result<SitePass, Mem>
        requires of { self.old.directory.gate ≡ turnstile.now }
        ensures kept { SiteStays self.old self.new }
        ensures split { IfOk result (λ other. IsSplitSite self.old other) }
    {
        let doors = split_doors(&mut self.doors, rt, alloc)?;
        match &mut self.pass {
            Some(pass) => {
                let other = turnstile.split(rt, pass)?;
                Ok(SitePass {
                    pass: Some(other),
                    doors,
                })
            }
            None => unreachable!(),
        }
    }

    // The repository that is asked for, where the caller has no door to it.
    fn lacking<'b>(&self, key: Option<&'b RepoKey>) -> Option<&'b RepoKey>
        ensures { option_map (λ k. k.now) result ≡ lacking self.now.doors (option_map (λ k. k.now) key.entry) }
    {
        match key {
            Some(key) => self.unless_there(key),
            None => None,
        }
    }

    // The repository, where the caller has no door to it.
    fn unless_there<'b>(&self, key: &'b RepoKey) -> Option<&'b RepoKey>
        ensures { option_map (λ k. k.now) result ≡ lacking self.now.doors (Some key.now) }
    {
        if self.doors.contains_key(&key.name) {
            None
        } else {
            Some(key)
        }
    }

    /// Makes a turn in the directory of that site, for a call on that repository or on the site. Where the name is
    /// registered, the caller gets a door to a repository to which it has none; there may be no memory for that.
    /// Without memory for the turn it is left without an entry.
    pub(crate) fn in_directory<W: Wait>(
        &mut self,
        turnstile: &Turnstile<SharedDirectory>,
        rt: &W,
        alloc: Global,
        site: SiteId,
        deed: Deed,
        key: Option<&RepoKey>,
    ) -> Result<(Done, Place, Result<Option<Door>, Mem>), Mem>
        requires of { self.old.directory.gate ≡ turnstile.now }
        requires at { turnstile.now.frame.cell ≡ Directory site }
        requires key { IfSome key (λ k. k.now.site ≡ site) }
        ensures visited { IfOk result
            (λ t. Visited (realm_of_frame turnstile.now.frame) (Some (view_of self.old.directory))
            (view_of self.new.directory) (Directory site) (ask_of deed) (told_of t.0) t.1) }
        ensures gate { self.new.directory.gate ≡ self.old.directory.gate }
        ensures doors { self.new.doors ≡ self.old.doors }
        ensures contents { IfOk result (λ t. HasContents t.0) }
        ensures given { IfOk result
            (λ t. IfOk t.2 (λ door. IfSome key.entry (λ k. refusal_of t.0 ≡ None
            → IsWay (site_frame_of turnstile.now.frame) self.old.doors k.now.name door))) }
        ensures err { OnErr result (ExtendsView (Some (view_of self.old.directory)) (view_of self.new.directory) []) }
    {
        let wanted = self.lacking(key);
        let Some(pass) = self.pass.take() else {
            unreachable!()
        };
        let caller = pass.caller();
        let mut turn = turnstile.enter(rt, pass);
        let ticket = turn.ticket();
        let made = turn.change().make(rt, alloc, ticket, caller, deed, wanted);
        self.pass = Some(turn.leave());
        let (done, door) = made?;
        let place = placed(CellKey::Directory(site), ticket, &done);
        Ok((done, place, door))
    }

    /// Makes a turn in a repository, through that door or the one that the caller has. Without memory it is left
    /// without an entry.
    pub(crate) fn in_repository<W: Wait, P: Pause>(
        &mut self,
        rt: &W,
        alloc: Global,
        key: RepoKey,
        deed: Deed,
        door: Option<Door>,
        pause: &P,
    ) -> Result<(Done, Place), Mem>
        requires at { site_of_cell self.old.directory.gate.frame.cell ≡ key.site }
        requires fits { FitsDeed deed }
        requires way { IsWay (site_frame_of self.old.directory.gate.frame) self.old.doors key.name door }
        ensures entered { IfOk result
            (λ t. Enters (realm_of_frame self.old.directory.gate.frame) self.old.doors self.new.doors key (ask_of deed)
            (told_of t.0) t.1) }
        ensures directory { self.new.directory ≡ self.old.directory }
        ensures contents { IfOk result (λ t. HasContents t.0) }
        ensures err { OnErr result ((self.new.doors ≡ self.old.doors) ⊎ Peers self.old.doors self.new.doors key) }
    {
        match door {
            Some(door) => self.through(rt, alloc, key, deed, door, pause),
            None => self.again(rt, alloc, key, deed, pause),
        }
    }

    // Makes a turn in a repository to which the caller has a door.
    fn again<W: Wait, P: Pause>(
        &mut self,
        rt: &W,
        alloc: Global,
        key: RepoKey,
        deed: Deed,
        pause: &P,
    ) -> Result<(Done, Place), Mem>
        requires at { site_of_cell self.old.directory.gate.frame.cell ≡ key.site }
        requires fits { FitsDeed deed }
        requires there { IsSome (door_at self.old.doors key.name) }
        ensures entered { IfOk result
            (λ t. Enters (realm_of_frame self.old.directory.gate.frame) self.old.doors self.new.doors key (ask_of deed)
            (told_of t.0) t.1) }
        ensures directory { self.new.directory ≡ self.old.directory }
        ensures contents { IfOk result (λ t. HasContents t.0) }
        ensures err { OnErr result (Peers self.old.doors self.new.doors key) }
    {
        match self.doors.get_mut(&key.name) {
            Some(door) => door.make(rt, alloc, key, deed, pause),
            None => unreachable!(),
        }
    }

    // Makes the caller's first turn in a repository, through that door, which it keeps.
    fn through<W: Wait, P: Pause>(
        &mut self,
        rt: &W,
        alloc: Global,
        key: RepoKey,
        deed: Deed,
        door: Door,
        pause: &P,
    ) -> Result<(Done, Place), Mem>
        requires at { site_of_cell self.old.directory.gate.frame.cell ≡ key.site }
        requires fits { FitsDeed deed }
        requires first { door_at self.old.doors key.name ≡ None }
        requires opened { IsOpened (frame_of_name (site_frame_of self.old.directory.gate.frame) key.name) door }
        ensures entered { IfOk result
            (λ t. Enters (realm_of_frame self.old.directory.gate.frame) self.old.doors self.new.doors key (ask_of deed)
            (told_of t.0) t.1) }
        ensures directory { self.new.directory ≡ self.old.directory }
        ensures contents { IfOk result (λ t. HasContents t.0) }
        ensures err { OnErr result ((self.new.doors ≡ self.old.doors) ⊎ Peers self.old.doors self.new.doors key) }
    {
        let name = copy_of_name(&key.name)?;
        hang(&mut self.doors, name, door)?;
        self.again(rt, alloc, key, deed, pause)
    }
}
