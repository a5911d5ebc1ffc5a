// The desk of many callers in memory.
ghost use Rattle.std.specs.Prelude.{◌≡◌, ◌∷◌, [], None, Some, Contains, IfOk, OnOk, OnErr, IsSome};
ghost use Rattle.ecr_model.specs.declared.registry.journal.CellKey.{CellKey as Cell};
ghost use Rattle.ecr_blob_upload.specs.Loads.{FitsCall, given};
ghost use Rattle.ecr_model.specs.registry.Contents.{AreContents};
ghost use Rattle.ecr_model.specs.requests.Requests as scripts;
ghost use Rattle.ecr_model.specs.requests.Requests.{plain};
ghost use Rattle.ecr_desk.specs.Desks.{IsOf, Ran, StoppedWithin};
ghost use Rattle.ecr_cells.specs.Deeds.{told_of, refusal_of};
ghost use Rattle.ecr_cells.specs.Desks.{places_made};
ghost use Rattle.ecr_cells.specs.Doors.{frame_of_directory};
ghost use Rattle.ecr_cells.specs.Holds.{Held, hold_script, idle_turn};
ghost use Rattle.ecr_cells.specs.Shared.{AreGates, HasSeenNothing, LeadsInto, Opens, gate_at, pass_of, seen_through, shared_of, views_in};
ghost use Rattle.ecr_cells.specs.Splits.{IsSplitOff};

use crate::cells::copy_of;
use crate::deed::{Deed, Done, first_deed, refusal_of};
use crate::desk::{answer_of, outcome_of, refused, reply_of};
use crate::repository::{copy_of as copy_of_key, copy_of_name};
use crate::shared::directory::SharedDirectory;
use crate::shared::door::Door;
use crate::shared::pass::{DeskPass, Passes};
use crate::shared::pause::{AtGate, NoPause};
use crate::shared::site::SitePass;
use ecr_blob_upload::{Load, Outcome};
use ecr_desk::{Answer, Desk, SiteAnswer};
use ecr_model::{Call, CellKey, Limits, Listed, Mem, Moment, Place, RepoKey, SiteCall, SiteId};
use ecr_outside::Gate;
use ecr_turn::Turnstile;
use std::alloc::Global;
use std::collections::BTreeMap;
use std::marker::Model;
use std::sync::Wait;

// The turnstile of each site's directory.
type Gates = BTreeMap<SiteId, Turnstile<SharedDirectory>>;

/// A registry in memory that many callers use at once, each with a [`DeskPass`]. Contracts see the sites and limits,
/// and which turnstile each site's directory has.
#[derive(Drop)]
pub struct SharedDesk {
    served: Listed<SiteId>,
    limits: Limits,
    sites: Gates,
}

impl Model for SharedDesk {
    ghost use Rattle.ecr_cells.specs.Shared.{SharedCells, AreGates};

    ghost Value = { SharedCells };

    ghost view = { λ d. record { served = d.served; limits = d.limits; sites = d.sites.entries } };

    ghost invariant = { λ d. AreGates d.served d.limits d.sites.entries };
}

impl SharedDesk {
    /// A registry that serves these sites, with no name, and the first pass to it. A site that stands twice among them
    /// is one.
    pub fn new(
        alloc: Global,
        sites: Vec<SiteId>,
        limits: Limits,
    ) -> Result<(SharedDesk, DeskPass), Mem>
        ensures realm { IfOk result (λ r. (shared_of r.0).realm ≡ record { served = sites.items; limits = limits }) }
        ensures of { IfOk result (λ r. IsOf (shared_of r.0) (pass_of r.1)) }
        ensures fresh { IfOk result (λ r. HasSeenNothing (pass_of r.1)) }
    {
        let served = Listed::from_vec(sites);
        let mut gates = BTreeMap::new(alloc);
        let mut passes = BTreeMap::new(alloc);
        for site in served.as_slice() {
            open(&mut gates, &mut passes, alloc, site, &served, limits)?;
        }
        let desk = SharedDesk {
            served,
            limits,
            sites: gates,
        };
        Ok((desk, DeskPass::new(passes)))
    }

    /// A pass for another caller, who begins with what this one has seen, and has added nothing.
    pub fn split<W: Wait>(
        &self,
        rt: &W,
        alloc: Global,
        pass: &mut DeskPass,
    ) -> Result<DeskPass, Mem>
        requires of { IsOf (shared_of self.now) (pass_of pass.old) }
        ensures kept { pass_of pass.new ≡ pass_of pass.old }
        ensures of { IfOk result (λ p. IsOf (shared_of self.now) (pass_of p)) }
        ensures seen { IfOk result
            (λ p. (cell : Cell) → IsSplitOff (views_in pass.old.sites cell) (views_in p.sites cell)) }
        ensures none_made { IfOk result (λ p. p.made ≡ 0) }
    {
        let sites = pass.sites(alloc)?;
        let mut splits = BTreeMap::new(alloc);
        for site in sites.as_slice() {
            let turnstile = self.turnstile_of(site);
            pass.split_site(turnstile, rt, alloc, site, &mut splits)?;
        }
        Ok(DeskPass::new(splits))
    }

    /// Takes the turn of a repository, passes the gate in it at [`InTurn`](ecr_outside::Stage::InTurn), and leaves it
    /// without an entry. It tells the turn's place. A name that isn't registered has no such turn, and the place is
    /// that of the directory's turn before it.
    ///
    /// So a test may keep others waiting for the repository.
    pub fn hold<W: Wait, G: Gate>(
        &self,
        rt: &W,
        alloc: Global,
        pass: &mut DeskPass,
        key: &RepoKey,
        worker: u32,
        gate: &G,
    ) -> Result<Place, Mem>
        requires served { Contains self.now.served key.now.site }
        requires of { IsOf (shared_of self.now) (pass_of pass.old) }
        ensures held { IfOk result
            (λ place. Held (seen_through self.now pass.old) (seen_through self.now pass.new) key.now place) }
        ensures of { IsOf (shared_of self.now) (pass_of pass.new) }
        ensures no_entry { pass.new.made ≡ pass.old.made }
        ensures err { OnErr result
            (StoppedWithin 1 (seen_through self.now pass.old) (seen_through self.now pass.new) (hold_script key.now)) }
    {
        let (told, first, door) = self.first_turn(rt, alloc, pass, key, &Call::Describe)?;
        match refusal_of(&told) {
            None => self.hold_cell(rt, alloc, pass, key, worker, gate, door?),
            Some(_) => Ok(first),
        }
    }

    // The turn in the repository that is held.
    fn hold_cell<W: Wait, G: Gate>(
        &self,
        rt: &W,
        alloc: Global,
        pass: &mut DeskPass,
        key: &RepoKey,
        worker: u32,
        gate: &G,
        door: Option<Door>,
    ) -> Result<Place, Mem>
        requires served { Contains self.now.served key.now.site }
        requires of { IsOf (shared_of self.now) (pass_of pass.old) }
        requires way { LeadsInto pass.old.sites key.now door }
        ensures ran { IfOk result
            (λ place. Ran (seen_through self.now pass.old) (seen_through self.now pass.new) (idle_turn key.now) tt
            (place ∷ [])) }
        ensures of { IsOf (shared_of self.now) (pass_of pass.new) }
        ensures no_entry { pass.new.made ≡ pass.old.made }
        ensures err { OnErr result
            (StoppedWithin 0 (seen_through self.now pass.old) (seen_through self.now pass.new) (idle_turn key.now)) }
    {
        self.gates_are();
        let copy = copy_of_key(key)?;
        let name = copy_of_name(&key.name)?;
        let deed = Deed::Knows(name);
        let pause = AtGate { gate, worker };
        let (_, place) = pass.in_repository(rt, alloc, copy, deed, door, &pause)?;
        Ok(place)
    }

    // The turnstile of a site's directory.
    fn turnstile_of(&self, site: &SiteId) -> &Turnstile<SharedDirectory>
        requires there { IsSome (gate_at self.now.sites site.now) }
        ensures found { gate_at self.now.sites site.now ≡ Some result.now }
    {
        match self.sites.get(site) {
            Some(turnstile) => turnstile,
            None => unreachable!(),
        }
    }

    // The turnstile of a served site's directory.
    fn directory_of(&self, site: &SiteId) -> &Turnstile<SharedDirectory>
        requires served { Contains self.now.served site.now }
        ensures found { gate_at self.now.sites site.now ≡ Some result.now }
        ensures frame { result.now.frame ≡ frame_of_directory (record {
          site = site.now;
          served = self.now.served;
          limits = self.now.limits;
        }) }
    {
        self.gates_are();
        self.turnstile_of(site)
    }

    // Each turnstile is that of its site's directory.
    fn gates_are(&self)
        ensures { AreGates self.now.served self.now.limits self.now.sites }
    {
        let _ = &self.sites;
    }

    // The turn in the directory with which a call on a repository begins.
    fn first_turn<W: Wait>(
        &self,
        rt: &W,
        alloc: Global,
        pass: &mut DeskPass,
        key: &RepoKey,
        call: &Call,
    ) -> Result<(Done, Place, Result<Option<Door>, Mem>), Mem>
        requires served { Contains self.now.served key.now.site }
        requires of { IsOf (shared_of self.now) (pass_of pass.old) }
        ensures ran { IfOk result
            (λ t. Ran (seen_through self.now pass.old) (seen_through self.now pass.new)
            (scripts.first_turn key.now call.now) (told_of t.0) (t.1 ∷ [])) }
        ensures of { IsOf (shared_of self.now) (pass_of pass.new) }
        ensures given { IfOk result
            (λ t. IfOk t.2 (λ door. refusal_of t.0 ≡ None → LeadsInto pass.new.sites key.now door)) }
        ensures err { OnErr result (StoppedWithin 0 (seen_through self.now pass.old)
            (seen_through self.now pass.new) (scripts.first_turn key.now call.now)) }
    {
        let site = copy_of(&key.site)?;
        let deed = first_deed(copy_of_name(&key.name)?, call);
        let turnstile = self.directory_of(&key.site);
        pass.in_directory(turnstile, rt, alloc, site, deed, Some(key))
    }

    // The rest of the call: where the name is registered, the turn in the repository, through that door or the one that
    // the caller has.
    fn then_cell<W: Wait>(
        &self,
        rt: &W,
        alloc: Global,
        pass: &mut DeskPass,
        key: &RepoKey,
        call: Call,
        load: Load,
        moment: Moment,
        told: Done,
        door: Result<Option<Door>, Mem>,
    ) -> Result<(Outcome, Option<Place>), Mem>
        requires served { Contains self.now.served key.now.site }
        requires fits { FitsCall call load }
        requires of { IsOf (shared_of self.now) (pass_of pass.old) }
        requires given { IfOk door (λ d. refusal_of told ≡ None → LeadsInto pass.old.sites key.now d) }
        ensures ran { IfOk result
            (λ t. Ran (seen_through self.now pass.old) (seen_through self.now pass.new)
            (scripts.then_cell key.now call (given load) moment (told_of told)) (plain t.0.reply) (places_made t.1)) }
        ensures of { IsOf (shared_of self.now) (pass_of pass.new) }
        ensures contents { IfOk result (λ t. AreContents t.0.reply t.0.blobs.items) }
        ensures err { OnErr result (StoppedWithin 0 (seen_through self.now pass.old)
            (seen_through self.now pass.new)
            (scripts.then_cell key.now call (given load) moment (told_of told))) }
    {
        match refusal_of(&told) {
            None => self.cell_turn(rt, alloc, pass, key, call, load, moment, door?),
            Some(refusal) => Ok((refused(alloc, refusal), None)),
        }
    }

    // The turn in the repository.
    fn cell_turn<W: Wait>(
        &self,
        rt: &W,
        alloc: Global,
        pass: &mut DeskPass,
        key: &RepoKey,
        call: Call,
        load: Load,
        moment: Moment,
        door: Option<Door>,
    ) -> Result<(Outcome, Option<Place>), Mem>
        requires served { Contains self.now.served key.now.site }
        requires fits { FitsCall call load }
        requires of { IsOf (shared_of self.now) (pass_of pass.old) }
        requires way { LeadsInto pass.old.sites key.now door }
        ensures ran { IfOk result
            (λ t. Ran (seen_through self.now pass.old) (seen_through self.now pass.new)
            (scripts.cell_turn key.now call (given load) moment) (plain t.0.reply) (places_made t.1)) }
        ensures of { IsOf (shared_of self.now) (pass_of pass.new) }
        ensures contents { IfOk result (λ t. AreContents t.0.reply t.0.blobs.items) }
        ensures err { OnErr result (StoppedWithin 0 (seen_through self.now pass.old)
            (seen_through self.now pass.new) (scripts.cell_turn key.now call (given load) moment)) }
    {
        self.gates_are();
        let copy = copy_of_key(key)?;
        let deed = Deed::OnRepository { call, load, moment };
        let (done, place) = pass.in_repository(rt, alloc, copy, deed, door, &NoPause)?;
        let outcome = outcome_of(alloc, done);
        Ok((outcome, Some(place)))
    }
}

// Opens a site with no name: the turnstile of its directory, and the first pass to it.
fn open(
    gates: &mut Gates,
    passes: &mut Passes,
    alloc: Global,
    site: &SiteId,
    served: &Listed<SiteId>,
    limits: Limits,
) -> Result<(), Mem>
    ensures { OnOk result (Opens gates.old.entries gates.new.entries passes.old.entries passes.new.entries
        (record { site = site.now; served = served.now; limits = limits })) }
{
    let sites = served.clone()?.into_vec();
    let directory = SharedDirectory::new(alloc, site.clone()?, sites, limits);
    match Turnstile::new(alloc, directory) {
        Ok((turnstile, pass)) => {
            gates.insert(site.clone()?, turnstile)?;
            passes.insert(site.clone()?, SitePass::new(alloc, pass))?;
            Ok(())
        }
        Err(_) => Err(Mem),
    }
}

impl Desk for SharedDesk {
    type Pass = DeskPass;

    ghost shared = { shared_of };

    fn registry<W: Wait>(
        &self,
        rt: &W,
        alloc: Global,
        pass: &mut DeskPass,
        site: &SiteId,
        call: SiteCall,
    ) -> Result<SiteAnswer, Mem> {
        let copy = copy_of(site)?;
        let turnstile = self.directory_of(site);
        let (done, place, _) = pass.in_directory(
            turnstile,
            rt,
            alloc,
            copy,
            Deed::OnSite(call),
            None,
        )?;
        let reply = reply_of(alloc, done);
        Ok(SiteAnswer { reply, place })
    }

    fn call<W: Wait>(
        &self,
        rt: &W,
        alloc: Global,
        pass: &mut DeskPass,
        key: &RepoKey,
        call: Call,
        load: Load,
        moment: Moment,
    ) -> Result<Answer, Mem> {
        // No memory is taken for the answer once a turn was made.
        let places = Vec::with_capacity(alloc, 2)?;
        let (told, first, door) = self.first_turn(rt, alloc, pass, key, &call)?;
        let (outcome, second) = self.then_cell(
            rt, alloc, pass, key, call, load, moment, told, door,
        )?;
        Ok(answer_of(outcome, places, first, second))
    }

    fn made(&self, pass: &DeskPass) -> u64 {
        pass.made()
    }

    fn served(&self) -> &[SiteId] {
        self.served.as_slice()
    }
}
