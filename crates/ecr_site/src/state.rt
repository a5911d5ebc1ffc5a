// A site's directory, and its changes.
ghost use Rattle.std.specs.Prelude.{◌≡◌, ◌<◌, ◌≤◌, ◌+◌, [], None, IfOk, OnErr, OnOk, length, take, drop};
ghost use Rattle.ecr_model.specs.registry.Directories.{is_registered, registration_line, names_of, IsSoundDirectory};
ghost use Rattle.ecr_model.specs.registry.Journals.{past};
ghost use Rattle.ecr_model.specs.declared.registry.directory.Registered.TheVariants.{New};
ghost use Rattle.ecr_site.specs.States.{after_register, directory_of, frame_of_journal, outcome_in, registration_in, with_line};

use crate::page::page_of;
use ecr_model::{Act, Entry, Limits, Line, Mem, Name, Registered, SiteCall, SiteId, SiteReply};
use std::alloc::Global;
use std::collections::BTreeSet;
use std::marker::Model;

/// The names of a site. Contracts see its journal, which leads to the directory that `ecr_model` defines.
#[derive(Drop)]
pub struct SiteState {
    site: SiteId,
    served: Vec<SiteId>,
    limits: Limits,
    journal: Vec<Line>,
    names: BTreeSet<Name>,
}

impl Model for SiteState {
    ghost use Rattle.ecr_site.specs.States.{SiteJournal, AreNamesOf};

    ghost Value = { SiteJournal };

    ghost view = { λ s. record {
      site = s.site;
      served = s.served.items;
      limits = s.limits;
      journal = s.journal.items;
    } };

    // The names are kept in their order, so that no call replays the journal.
    ghost invariant = { λ s. AreNamesOf
        (record { site = s.site; served = s.served.items; limits = s.limits }) s.journal.items s.names.keys };
}

impl SiteState {
    /// The directory of a site with no name, of a registry that serves these sites. It takes no memory.
    pub fn new(alloc: Global, site: SiteId, served: Vec<SiteId>, limits: Limits) -> SiteState
        ensures empty { result ≡ record { site = site; served = served.items; limits = limits; journal = [] } }
    {
        SiteState {
            site,
            served,
            limits,
            journal: Vec::new(alloc),
            names: BTreeSet::new(alloc),
        }
    }

    /// How many lines its journal has.
    pub fn entries(&self) -> u64
        ensures count { result ≡ length self.now.journal }
    {
        self.journal.len() as u64
    }

    /// How many names are registered.
    pub fn count(&self) -> u64
        ensures names { result ≡ length (directory_of self.now).names }
    {
        self.names.len() as u64
    }

    /// Whether the name is registered. It takes about as many comparisons as the logarithm of their number.
    pub fn knows(&self, name: &Name) -> bool
        ensures known { result ≡ is_registered name.now (directory_of self.now) }
    {
        self.names.contains(name)
    }

    /// At most `max` of the names in the order of their bytes, from the one at the place `from` on, counted from 0.
    /// There are more where `from + max` is below [`SiteState::count`]. The names before them are stepped over one by
    /// one.
    pub fn names(&self, alloc: Global, from: u64, max: u32) -> Result<Vec<Name>, Mem>
        ensures page { IfOk result
            (λ v. v.items ≡ names_of (record { from = from; max = max }) (directory_of self.now)) }
    {
        part_of(alloc, &self.names, from as usize, max as usize)
    }

    /// Answers a call on the directory, as any turn would now. No call changes a directory yet.
    pub fn answer(&self, alloc: Global, call: SiteCall) -> Result<SiteReply, Mem>
        ensures exact { IfOk result (λ reply. reply ≡ (outcome_in self.now call).reply) }
        ensures asks { (outcome_in self.now call).act ≡ None }
    {
        match call {
            SiteCall::Names { page } => page_of(alloc, self, page),
        }
    }

    /// Registers the name in the turn of that ticket, under that caller's number, where it is new and the limit isn't
    /// reached. After an `Err` the directory is as before.
    ///
    /// The ticket is above all in the journal.
    pub fn register(&mut self, ticket: u64, caller: u64, name: &Name) -> Result<Registered, Mem>
        requires later { past self.old.journal ≤ ticket }
        ensures exact { IfOk result (λ r. r ≡ registration_in self.old name.now) }
        ensures entered { OnOk result (self.new ≡ after_register self.old ticket caller name.now) }
        ensures err { OnErr result (self.new ≡ self.old) }

        // So any later ticket is above all again.
        ensures below { past self.new.journal ≤ ticket + 1 }
    {
        if self.count() < self.limits.names {
            self.enter(ticket, caller, name)
        } else {
            Ok(self.beyond(name))
        }
    }

    /// What becomes of the name where the limit is reached: it is known, or one too many.
    #[tactic(auto, unfolding(ecr_model::specs::registry::Directories::registration))]
    fn beyond(&self, name: &Name) -> Registered
        requires { self.now.limits.names ≤ length (directory_of self.now).names }
        ensures { result ≡ registration_in self.now name.now }
    {
        if self.knows(name) {
            Registered::Known
        } else {
            Registered::Full {
                limit: self.limits.names,
                count: self.count(),
            }
        }
    }

    /// Enters the line of the name, where it is new. The limit isn't reached.
    fn enter(&mut self, ticket: u64, caller: u64, name: &Name) -> Result<Registered, Mem>
        requires later { past self.old.journal ≤ ticket }
        requires below { length (directory_of self.old).names < self.old.limits.names }
        ensures exact { IfOk result (λ r. r ≡ registration_in self.old name.now) }
        ensures entered { OnOk result (self.new ≡ after_register self.old ticket caller name.now) }
        ensures err { OnErr result (self.new ≡ self.old) }
        ensures last { past self.new.journal ≤ ticket + 1 }
    {
        self.journal.reserve(1)?;
        let told = copy_of(name)?;
        let kept = copy_of(name)?;
        // The last step that may fail; where it does, or the name is known, the set is as before.
        if !self.names.insert(kept)? {
            return Ok(Registered::Known);
        }
        self.journal.push_reserved(line_of(ticket, caller, told));
        Ok(Registered::New)
    }
}

/// A copy of the name.
fn copy_of(name: &Name) -> Result<Name, Mem>
    ensures { IfOk result (λ copy. copy ≡ name.now) }
{
    name.clone()
}

/// The line that a registration enters.
fn line_of(ticket: u64, caller: u64, name: Name) -> Line
    ensures { result ≡ registration_line ticket caller name }
{
    Line {
        ticket,
        caller,
        entry: Entry {
            moment: 0,
            act: Act::Register(name),
        },
    }
}

/// Copies of at most `max` of the names, from the place `from` on.
fn part_of(alloc: Global, names: &BTreeSet<Name>, from: usize, max: usize) -> Result<Vec<Name>, Mem>
    ensures { IfOk result (λ v. v.items ≡ take max (drop from names.now.keys)) }
{
    let mut page = Vec::new(alloc);
    for name in names.iter().skip(from).take(max) {
        page.push(copy_of(name)?)?;
    }
    Ok(page)
}

/// The journal of a directory is sound.
pub fn a_journal_is_sound(state: &SiteState)
    ensures sound { IsSoundDirectory (frame_of_journal state.now) state.now.journal }
{
    let _ = &state.journal;
}
