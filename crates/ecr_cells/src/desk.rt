// The desk of one caller in memory.
ghost use Rattle.std.specs.Prelude.{◌≡◌, ◌∷◌, ◌+◌, ◌<◌, ◌≤◌, ◌^◌, [], None, false, refl, Contains, IfOk, OnErr, if◌then◌else◌, vec_len, vec_capacity};
ghost use Rattle.ecr_blob_upload.specs.Loads.{FitsCall, given};
ghost use Rattle.ecr_model.specs.declared.requests.reply.Reply.TheVariants as replies;
ghost use Rattle.ecr_model.specs.declared.requests.reply.SiteReply.TheVariants as site_replies;
ghost use Rattle.ecr_model.specs.registry.Contents.{AreContents};
ghost use Rattle.ecr_model.specs.requests.Requests as scripts;
ghost use Rattle.ecr_model.specs.requests.Requests.{plain, reply_told, site_told};
ghost use Rattle.ecr_model.specs.registry.Scripts.{fresh, ends, turn};
ghost use Rattle.ecr_desk.specs.Desks.{Ran};
ghost use Rattle.ecr_cells.specs.Deeds.{ask_of, told_of, FitsDeed, HasContents};
ghost use Rattle.ecr_cells.specs.Desks.{still_state_of, state_of, places_made};
ghost use Rattle.ecr_cells.specs.SiteCells.{site_of_cell};

use crate::cells;
use crate::cells::{Cells, cells_of, copy_of};
use crate::deed::{Deed, Done, first_deed, refusal_of};
use crate::repository::{copy_of as copy_of_key, copy_of_name};
use ecr_blob_upload::{Load, Outcome};
use ecr_desk::{Answer, AnyDesk, SiteAnswer, StillDesk};
use ecr_model::{
    Call, CellKey, Limits, Listed, Mem, Moment, Place, Refusal, Reply, RepoKey, SiteCall, SiteId,
    SiteReply,
};
use std::alloc::Global;
use std::marker::Model;

/// A registry in memory, for one caller. Contracts see the cells of each site, and of these the journals.
#[derive(Drop)]
pub struct SoloDesk {
    served: Listed<SiteId>,
    limits: Limits,
    cells: Cells,
    made: u64,
}

impl Model for SoloDesk {
    ghost use Rattle.ecr_cells.specs.Desks.{Desk, AreKept};

    ghost Value = { Desk };

    ghost view = { λ d. record { served = d.served; limits = d.limits; sites = d.cells.entries; made = d.made } };

    ghost invariant = { λ d. AreKept d.served d.limits d.cells.entries };
}

impl SoloDesk {
    /// A registry that serves these sites, with no name. A site that stands twice among them is one.
    pub fn new(alloc: Global, sites: Vec<SiteId>, limits: Limits) -> Result<SoloDesk, Mem>
        ensures fresh { IfOk result
            (λ d. still_state_of d ≡ record {
              realm = record { served = sites.items; limits = limits };
              world = fresh;
              made = 0;
            }) }
    {
        let served = Listed::from_vec(sites);
        let cells = cells_of(alloc, &served, limits)?;
        Ok(SoloDesk {
            served,
            limits,
            cells,
            made: 0,
        })
    }

    // Makes the next turn in a cell of a served site, and counts its entry. Without memory all is as before.
    fn make(&mut self, alloc: Global, cell: CellKey, deed: Deed) -> Result<(Done, Place), Mem>
        requires served { Contains self.old.served (site_of_cell cell) }
        requires fits { FitsDeed deed }
        ensures ran { IfOk result
            (λ t. Ran (state_of self.old) (state_of self.new) (turn cell (ask_of deed) (λ told. ends told))
            (told_of t.0) (t.1 ∷ [])) }
        ensures contents { IfOk result (λ t. HasContents t.0) }
        ensures err { OnErr result (still_state_of self.new ≡ still_state_of self.old) }
    {
        // The count of entries fits.
        if self.made == u64::MAX {
            return Err(Mem);
        }
        let (done, place) = cells::make(&mut self.cells, alloc, cell, deed)?;
        self.made = counted(self.made, place.changed);
        Ok((done, place))
    }

    // The turn in the directory with which a call on a repository begins.
    fn first_turn(
        &mut self,
        alloc: Global,
        key: &RepoKey,
        call: &Call,
    ) -> Result<(Done, Place), Mem>
        requires served { Contains self.old.served key.now.site }
        ensures ran { IfOk result
            (λ t. Ran (state_of self.old) (state_of self.new) (scripts.first_turn key.now call.now) (told_of t.0)
            (t.1 ∷ [])) }
        ensures err { OnErr result (still_state_of self.new ≡ still_state_of self.old) }
    {
        let site = copy_of(&key.site)?;
        let deed = first_deed(copy_of_name(&key.name)?, call);
        let (done, place) = self.make(alloc, CellKey::Directory(site), deed)?;
        Ok((done, place))
    }

    // The rest of the call: where the name is registered, the turn in the repository.
    fn then_cell(
        &mut self,
        alloc: Global,
        key: &RepoKey,
        call: Call,
        load: Load,
        moment: Moment,
        told: Done,
    ) -> Result<(Outcome, Option<Place>), Mem>
        requires served { Contains self.old.served key.now.site }
        requires fits { FitsCall call load }
        ensures ran { IfOk result
            (λ t. Ran (state_of self.old) (state_of self.new)
            (scripts.then_cell key.now call (given load) moment (told_of told)) (plain t.0.reply) (places_made t.1)) }
        ensures contents { IfOk result (λ t. AreContents t.0.reply t.0.blobs.items) }
        ensures err { OnErr result (still_state_of self.new ≡ still_state_of self.old) }
    {
        match refusal_of(&told) {
            None => self.cell_turn(alloc, key, call, load, moment),
            Some(refusal) => Ok((refused(alloc, refusal), None)),
        }
    }

    // The turn in the repository.
    fn cell_turn(
        &mut self,
        alloc: Global,
        key: &RepoKey,
        call: Call,
        load: Load,
        moment: Moment,
    ) -> Result<(Outcome, Option<Place>), Mem>
        requires served { Contains self.old.served key.now.site }
        requires fits { FitsCall call load }
        ensures ran { IfOk result
            (λ t. Ran (state_of self.old) (state_of self.new) (scripts.cell_turn key.now call (given load) moment)
            (plain t.0.reply) (places_made t.1)) }
        ensures contents { IfOk result (λ t. AreContents t.0.reply t.0.blobs.items) }
        ensures err { OnErr result (still_state_of self.new ≡ still_state_of self.old) }
    {
        let copy = copy_of_key(key)?;
        let deed = Deed::OnRepository { call, load, moment };
        let (done, place) = self.make(alloc, CellKey::Repository(copy), deed)?;
        let outcome = outcome_of(alloc, done);
        Ok((outcome, Some(place)))
    }
}

impl AnyDesk for SoloDesk {
    ghost seen = { state_of };

    fn registry(
        &mut self,
        alloc: Global,
        site: &SiteId,
        call: SiteCall,
    ) -> Result<SiteAnswer, Mem> {
        let copy = copy_of(site)?;
        let (done, place) = self.make(alloc, CellKey::Directory(copy), Deed::OnSite(call))?;
        let reply = reply_of(alloc, done);
        Ok(SiteAnswer { reply, place })
    }

    fn call(
        &mut self,
        alloc: Global,
        key: &RepoKey,
        call: Call,
        load: Load,
        moment: Moment,
    ) -> Result<Answer, Mem> {
        // No memory is taken for the answer once a turn was made.
        let places = Vec::with_capacity(alloc, 2)?;
        let (told, first) = self.first_turn(alloc, key, &call)?;
        let (outcome, second) = self.then_cell(alloc, key, call, load, moment, told)?;
        Ok(answer_of(outcome, places, first, second))
    }

    fn made(&self) -> u64 {
        self.made
    }

    fn served(&self) -> &[SiteId] {
        self.served.as_slice()
    }
}

impl StillDesk for SoloDesk {
    ghost is_still = { λ desk. refl };
}

/// The number with one more, where an entry was added.
pub(crate) fn counted(made: u64, changed: bool) -> u64
    requires { made + 1 < 2 ^ 64 }
    ensures { result ≡ made + (if changed then 1 else 0) }
{
    if changed { made + 1 } else { made }
}

/// The reply that the directory told.
pub(crate) fn reply_of(alloc: Global, done: Done) -> SiteReply
    ensures { result ≡ site_told (told_of done) }
{
    match done {
        Done::Listed(reply) => reply,
        Done::Known(_) => no_names(alloc),
        Done::Registered(_) => no_names(alloc),
        Done::Replied(_) => no_names(alloc),
        Done::Nothing => no_names(alloc),
    }
}

// No name.
fn no_names(alloc: Global) -> SiteReply
    ensures { result ≡ site_replies.Names [] false }
{
    SiteReply::Names {
        names: Listed::from_vec(Vec::new(alloc)),
        more: false,
    }
}

/// The reply that the repository told, with its content.
pub(crate) fn outcome_of(alloc: Global, done: Done) -> Outcome
    requires { HasContents done }
    ensures reply { plain result.reply ≡ reply_told (told_of done) }
    ensures contents { AreContents result.reply result.blobs.items }
{
    match done {
        Done::Replied(outcome) => outcome,
        Done::Known(_) => refused(alloc, Refusal::RepositoryNotFound),
        Done::Registered(_) => refused(alloc, Refusal::RepositoryNotFound),
        Done::Listed(_) => refused(alloc, Refusal::RepositoryNotFound),
        Done::Nothing => refused(alloc, Refusal::RepositoryNotFound),
    }
}

/// The refusal of a call that had no turn in the repository.
pub(crate) fn refused(alloc: Global, refusal: Refusal) -> Outcome
    ensures reply { result.reply ≡ replies.Refused refusal }
    ensures contents { AreContents result.reply result.blobs.items }
{
    Outcome {
        reply: Reply::Refused(refusal),
        blobs: Vec::new(alloc),
        changed: false,
    }
}

/// The answer with its one or two places.
pub(crate) fn answer_of(
    outcome: Outcome,
    mut places: Vec<Place>,
    first: Place,
    second: Option<Place>,
) -> Answer
    requires { (vec_len places ≡ 0) × (2 ≤ vec_capacity places) }
    ensures reply { result.reply ≡ outcome.reply }
    ensures blobs { result.blobs.items ≡ outcome.blobs.items }
    ensures places { result.places.items ≡ first ∷ places_made second }
    ensures sealed { result.sealed ≡ None }
{
    places.push_reserved(first);
    if let Some(place) = second {
        places.push_reserved(place);
    }
    Answer {
        reply: outcome.reply,
        blobs: outcome.blobs,
        places,
        sealed: None,
    }
}
