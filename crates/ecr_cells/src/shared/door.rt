// A repository's turnstile with a pass to it.
ghost use Rattle.std.specs.Prelude.{◌≡◌, ◌≢◌, [], Some, IfOk, OnErr};
ghost use Rattle.ecr_model.specs.declared.registry.journal.CellKey.TheVariants.{Repository};
ghost use Rattle.ecr_model.specs.registry.Views.{ExtendsView};
ghost use Rattle.ecr_turn.specs.Passes.{IsAsWise};
ghost use Rattle.ecr_cells.specs.Deeds.{ask_of, told_of, FitsDeed, HasContents};
ghost use Rattle.ecr_cells.specs.Doors.{frame_of_repository, realm_of_frame, view_of, IsOpened, Visited};

use crate::deed::{Deed, Done};
use crate::shared::pause::Pause;
use crate::shared::repository::SharedRepository;
use crate::site_cells::placed;
use ecr_model::{CellKey, Mem, Place, RepoKey};
use ecr_turn::{Pass, Turnstile};
use std::alloc::Global;
use std::marker::Model;
use std::sync::{Arc, Wait};

/// A repository's turnstile with a pass to it, which is away only in a turn. Contracts see what the pass knows.
#[derive(Drop)]
pub(crate) struct Door {
    turnstile: Arc<Turnstile<SharedRepository>, Global>,
    pass: Option<Pass<SharedRepository>>,
}

impl Model for Door {
    ghost use Rattle.std.specs.Prelude.{◌≡◌, IsSome};
    ghost use Rattle.std.specs.Arc.{arc_value};
    ghost use Rattle.ecr_turn.specs.Passes.{Known, known_in};

    ghost Value = { Known };

    ghost view = { λ d. known_in d.pass };

    ghost invariant = { λ d. IsSome d.pass × ((known_in d.pass).gate ≡ arc_value d.turnstile) };
}

impl Door {
    /// A turnstile for this repository, whose journal is empty, and the first pass to it.
    pub(crate) fn new(alloc: Global, repository: SharedRepository) -> Result<Door, Mem>
        requires fresh { repository.state.journal ≡ [] }
        ensures opened { IfOk result (λ d. IsOpened (frame_of_repository repository) d) }
    {
        match Turnstile::new(alloc, repository) {
            Ok((turnstile, pass)) => {
                let turnstile = Arc::new(alloc, turnstile)?;
                Ok(Door {
                    turnstile,
                    pass: Some(pass),
                })
            }
            Err(_) => Err(Mem),
        }
    }

    /// A pass for another caller to the same turnstile, who begins with what this one has seen.
    pub(crate) fn another<W: Wait>(&mut self, rt: &W) -> Result<Door, Mem>
        ensures kept { self.new ≡ record self.old { callers = self.new.callers } }
        ensures given { IfOk result (λ d. IsAsWise self.old d) }
        ensures new { IfOk result (λ d. d.caller ≢ self.old.caller) }
    {
        let turnstile = Arc::try_clone(&self.turnstile)?;
        match &mut self.pass {
            Some(pass) => {
                let given = self.turnstile.split(rt, pass)?;
                Ok(Door {
                    turnstile,
                    pass: Some(given),
                })
            }
            None => unreachable!(),
        }
    }

    /// Makes a turn in the repository of that key, after the pause in it. Without memory the turn is left without an
    /// entry.
    pub(crate) fn make<W: Wait, P: Pause>(
        &mut self,
        rt: &W,
        alloc: Global,
        key: RepoKey,
        deed: Deed,
        pause: &P,
    ) -> Result<(Done, Place), Mem>
        requires at { self.old.gate.frame.cell ≡ Repository key }
        requires fits { FitsDeed deed }
        ensures visited { IfOk result
            (λ t. Visited (realm_of_frame self.old.gate.frame) (Some (view_of self.old)) (view_of self.new)
            (Repository key)
            (ask_of deed) (told_of t.0) t.1) }
        ensures gate { self.new.gate ≡ self.old.gate }
        ensures contents { IfOk result (λ t. HasContents t.0) }
        ensures err { OnErr result (ExtendsView (Some (view_of self.old)) (view_of self.new) []) }
    {
        let Some(pass) = self.pass.take() else {
            unreachable!()
        };
        let caller = pass.caller();
        let mut turn = self.turnstile.enter(rt, pass);
        let ticket = turn.ticket();
        pause.pause(rt);
        let made = turn.change().make(alloc, ticket, caller, deed);
        self.pass = Some(turn.leave());
        let done = made?;
        let place = placed(CellKey::Repository(key), ticket, &done);
        Ok((done, place))
    }
}
