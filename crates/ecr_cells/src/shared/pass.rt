// A caller's passes at all sites.
ghost use Rattle.std.specs.Prelude.{◌≡◌, ◌∷◌, ◌+◌, ◌<◌, ◌^◌, [], None, Some, IfOk, OnOk, OnErr, IfSome, IsSome, All};
ghost use Rattle.std.specs.Map.{keys_of};
ghost use Rattle.ecr_model.specs.declared.registry.journal.CellKey.TheVariants.{Directory, Repository};
ghost use Rattle.ecr_model.specs.registry.Scripts.{turn, ends};
ghost use Rattle.ecr_turn.specs.Passes.{Gate};
ghost use Rattle.ecr_desk.specs.Desks.{Ran};
ghost use Rattle.ecr_cells.specs.Deeds.{ask_of, told_of, refusal_of, FitsDeed, HasContents};
ghost use Rattle.ecr_cells.specs.Doors.{realm_of_frame, site_frame_of};
ghost use Rattle.ecr_cells.specs.Shared.{Looks, LeadsInto, caller_state, gates_in, pass_of, passes_at};
ghost use Rattle.ecr_cells.specs.Splits.{SplitsSite};

use crate::cells::copy_of;
use crate::deed::{Deed, Done};
use crate::desk::counted;
use crate::shared::directory::SharedDirectory;
use crate::shared::door::Door;
use crate::shared::pause::Pause;
use crate::shared::site::SitePass;
use ecr_desk::Seen;
use ecr_model::{Mem, Place, RepoKey, SiteId};
use ecr_turn::Turnstile;
use std::alloc::Global;
use std::collections::BTreeMap;
use std::marker::Model;
use std::sync::Wait;

/// A caller's passes at each site.
pub(crate) type Passes = BTreeMap<SiteId, SitePass>;

/// The right to use a [`SharedDesk`](crate::SharedDesk): the passes of one caller. Contracts see what they know, and
/// how many entries the caller has added.
#[derive(Drop)]
pub struct DeskPass {
    sites: Passes,
    made: u64,
}

impl Model for DeskPass {
    ghost use Rattle.ecr_cells.specs.Shared.{DeskKnown};

    ghost Value = { DeskKnown };

    ghost view = { λ p. record { sites = p.sites.entries; made = p.made } };
}

impl Seen for DeskPass {
    ghost use Rattle.ecr_cells.specs.Shared.{pass_of};

    ghost seen = { pass_of };
}

impl DeskPass {
    /// The passes of a caller that has added no entry.
    pub(crate) fn new(sites: Passes) -> DeskPass
        ensures { result ≡ record { sites = sites.entries; made = 0 } }
    {
        DeskPass { sites, made: 0 }
    }

    /// The sites at which it has passes.
    pub(crate) fn sites(&self, alloc: Global) -> Result<Vec<SiteId>, Mem>
        ensures sites { IfOk result (λ sites. sites.items ≡ keys_of self.now.sites) }
        ensures found { IfOk result (λ sites. All (λ site. IsSome (passes_at self.now.sites site)) sites.items) }
    {
        let mut sites = Vec::new(alloc);
        for site in self.sites.keys() {
            sites.push(copy_of(site)?)?;
        }
        Ok(sites)
    }

    /// Adds another caller's passes at that site to `splits`, who begins with what this one has seen.
    pub(crate) fn split_site<W: Wait>(
        &mut self,
        turnstile: &Turnstile<SharedDirectory>,
        rt: &W,
        alloc: Global,
        site: &SiteId,
        splits: &mut Passes,
    ) -> Result<(), Mem>
        requires of { gates_in self.old.sites site.now ≡ Some turnstile.now }
        ensures kept { pass_of self.new ≡ pass_of self.old }
        ensures split { OnOk result (SplitsSite (pass_of self.old) splits.old.entries splits.new.entries site.now) }
    {
        let copy = copy_of(site)?;
        match self.sites.get_mut(site) {
            Some(passes) => {
                let other = passes.split(turnstile, rt, alloc)?;
                splits.insert(copy, other)?;
                Ok(())
            }
            None => unreachable!(),
        }
    }

    /// How many entries the caller has added.
    pub(crate) fn made(&self) -> u64
        ensures { result ≡ self.now.made }
    {
        self.made
    }

    /// Makes a turn in a site's directory, for a call on that repository or on the site, and counts its entry. Where
    /// the name is registered, the caller gets a door to a repository to which it has none; there may be no memory for
    /// that. Without memory for the turn it is left without an entry.
    pub(crate) fn in_directory<W: Wait>(
        &mut self,
        turnstile: &Turnstile<SharedDirectory>,
        rt: &W,
        alloc: Global,
        site: SiteId,
        deed: Deed,
        key: Option<&RepoKey>,
    ) -> Result<(Done, Place, Result<Option<Door>, Mem>), Mem>
        requires of { gates_in self.old.sites site ≡ Some turnstile.now }
        requires at { turnstile.now.frame.cell ≡ Directory site }
        requires key { IfSome key (λ k. k.now.site ≡ site) }
        ensures ran { IfOk result
            (λ t. Ran (caller_state (realm_of_frame turnstile.now.frame) self.old)
            (caller_state (realm_of_frame turnstile.now.frame) self.new)
            (turn (Directory site) (ask_of deed) (λ told. ends told)) (told_of t.0) (t.1 ∷ [])) }
        ensures gates { gates_in self.new.sites ≡ gates_in self.old.sites }
        ensures contents { IfOk result (λ t. HasContents t.0) }
        ensures given { IfOk result
            (λ t. IfOk t.2 (λ door. IfSome key.entry
            (λ k. refusal_of t.0 ≡ None → LeadsInto self.new.sites k.now door))) }
        ensures err { OnErr result (Looks (realm_of_frame turnstile.now.frame) self.old self.new (Directory site)) }
    {
        // The count of entries fits.
        if self.made == u64::MAX {
            return Err(Mem);
        }
        match self.sites.get_mut(&site) {
            Some(passes) => {
                let (done, place, door) = passes.in_directory(
                    turnstile, rt, alloc, site, deed, key,
                )?;
                self.made = counted(self.made, place.changed);
                Ok((done, place, door))
            }
            None => unreachable!(),
        }
    }

    /// Makes a turn in a repository, through that door or the one that the caller has, and counts its entry. Without
    /// memory it is left without an entry.
    pub(crate) fn in_repository<W: Wait, P: Pause>(
        &mut self,
        rt: &W,
        alloc: Global,
        key: RepoKey,
        deed: Deed,
        door: Option<Door>,
        pause: &P,
    ) -> Result<(Done, Place), Mem>
        requires at { (gate : Gate) → gates_in self.old.sites key.site ≡ Some gate
            → gate.frame.cell ≡ Directory key.site }
        requires fits { FitsDeed deed }
        requires way { LeadsInto self.old.sites key door }
        ensures ran { (gate : Gate) → gates_in self.old.sites key.site ≡ Some gate → IfOk result
            (λ t. Ran (caller_state (realm_of_frame gate.frame) self.old)
            (caller_state (realm_of_frame gate.frame) self.new)
            (turn (Repository key) (ask_of deed) (λ told. ends told)) (told_of t.0) (t.1 ∷ [])) }
        ensures gates { gates_in self.new.sites ≡ gates_in self.old.sites }
        ensures contents { IfOk result (λ t. HasContents t.0) }
        ensures err { (gate : Gate) → gates_in self.old.sites key.site ≡ Some gate
            → OnErr result (Looks (realm_of_frame gate.frame) self.old self.new (Repository key)) }
    {
        // The count of entries fits.
        if self.made == u64::MAX {
            return Err(Mem);
        }
        match self.sites.get_mut(&key.site) {
            Some(passes) => {
                let (done, place) = passes.in_repository(rt, alloc, key, deed, door, pause)?;
                self.made = counted(self.made, place.changed);
                Ok((done, place))
            }
            None => unreachable!(),
        }
    }
}
