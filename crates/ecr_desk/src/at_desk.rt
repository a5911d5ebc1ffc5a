// One caller at a desk of many.
ghost use Rattle.std.specs.Prelude.{◌≡◌};
ghost use Rattle.ecr_desk.specs.Desks.{IsOf, seen_with};

use crate::desk::{Desk, Seen};
use crate::{Answer, AnyDesk, SiteAnswer};
use ecr_blob_upload::Load;
use ecr_model::{Call, Mem, Moment, RepoKey, SiteCall, SiteId};
use std::alloc::Global;
use std::sync::Wait;

/// A caller at a desk of many, with its pass: so one caller's work is written once, for desks of one caller and of
/// many.
pub struct AtDesk<'a, W: Wait, D: Desk> {
    rt: &'a W,
    desk: &'a D,
    pass: D::Pass,
    ghost of: { IsOf (D.shared desk.now) (D.Pass.seen pass) },
}

impl<'a, W: Wait, D: Desk> AtDesk<'a, W, D> {
    /// The caller of that pass at its desk.
    pub fn new(rt: &'a W, desk: &'a D, pass: D::Pass) -> AtDesk<'a, W, D>
        requires of { IsOf (D.shared desk.now) (D.Pass.seen pass) }
        ensures desk { result.desk.now ≡ desk.now }
        ensures pass { result.pass ≡ pass }
    {
        AtDesk { rt, desk, pass }
    }

    /// Its pass.
    pub fn into_pass(self) -> D::Pass
        ensures pass { result ≡ self.entry.pass }
    {
        let AtDesk {
            rt: _,
            desk: _,
            pass,
        } = self;
        pass
    }
}

impl<'a, W: Wait, D: Desk> AnyDesk for AtDesk<'a, W, D> {
    ghost seen = { λ d. seen_with (D.shared d.desk.now) (D.Pass.seen d.pass) };

    fn registry(
        &mut self,
        alloc: Global,
        site: &SiteId,
        call: SiteCall,
    ) -> Result<SiteAnswer, Mem> {
        self.desk
            .registry(self.rt, alloc, &mut self.pass, site, call)
    }

    fn call(
        &mut self,
        alloc: Global,
        key: &RepoKey,
        call: Call,
        load: Load,
        moment: Moment,
    ) -> Result<Answer, Mem> {
        self.desk
            .call(self.rt, alloc, &mut self.pass, key, call, load, moment)
    }

    fn made(&self) -> u64 {
        self.desk.made(&self.pass)
    }

    fn served(&self) -> &[SiteId] {
        self.desk.served()
    }
}
