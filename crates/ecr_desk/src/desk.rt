// The desk of many callers, and what each of them has seen of it.
ghost use Rattle.std.specs.Prelude.{◌≡◌, ◌∷◌, [], Contains, IfOk, OnErr};
ghost use Rattle.ecr_blob_upload.specs.Loads.{FitsCall, given};
ghost use Rattle.ecr_model.specs.registry.Contents.{AreContents};
ghost use Rattle.ecr_model.specs.requests.Requests.{call_script, site_script};
ghost use Rattle.ecr_desk.specs.Desks.{PassState, SharedState, IsOf, Ran, StoppedWithin, seen_with};

use crate::{Answer, SiteAnswer};
use ecr_blob_upload::Load;
use ecr_model::{Call, Mem, Moment, RepoKey, SiteCall, SiteId};
use std::alloc::Global;
use std::sync::Wait;

/// The right to use a desk: what one of its callers has seen.
pub trait Seen {
    /// Which desk it is of, the caller's views of the cells, and the number of entries that it has added.
    ghost seen: { Self → PassState };
}

/// A registry that many callers use at once, each with a pass of its own.
///
/// Each turn of a call waits for those before it in its cell. Contracts see what the pass has seen before and
/// afterwards; what others do in between is among it. A call changes the views of the cells of its turns alone.
pub trait Desk {
    /// The right to use it.
    type Pass: Seen;

    /// The sites and limits, and which desk it is.
    ghost shared: { Self → SharedState };

    /// A call on the directory of a served site. It has one turn, which without memory isn't made.
    fn registry<W: Wait>(
        &self,
        rt: &W,
        alloc: Global,
        pass: &mut Self::Pass,
        site: &SiteId,
        call: SiteCall,
    ) -> Result<SiteAnswer, Mem>
        requires served { Contains (shared self.now).realm.served site.now }
        requires of { IsOf (shared self.now) (Self.Pass.seen pass.old) }
        ensures of { IsOf (shared self.now) (Self.Pass.seen pass.new) }
        ensures ran { IfOk result
            (λ a. Ran (seen_with (shared self.now) (Self.Pass.seen pass.old))
            (seen_with (shared self.now) (Self.Pass.seen pass.new))
            (site_script site.now call) a.reply (a.place ∷ [])) }
        ensures stopped { OnErr result
            (StoppedWithin 0 (seen_with (shared self.now) (Self.Pass.seen pass.old))
            (seen_with (shared self.now) (Self.Pass.seen pass.new)) (site_script site.now call)) };

    /// A call on a repository of a served site, with the content that comes with it.
    ///
    /// Its site's directory has the first turn, which registers the name where the call is CreateRepository. Where the
    /// name is registered, the repository has the second. Without memory at most the first was made.
    fn call<W: Wait>(
        &self,
        rt: &W,
        alloc: Global,
        pass: &mut Self::Pass,
        key: &RepoKey,
        call: Call,
        load: Load,
        moment: Moment,
    ) -> Result<Answer, Mem>
        requires served { Contains (shared self.now).realm.served key.now.site }
        requires fits { FitsCall call load }
        requires of { IsOf (shared self.now) (Self.Pass.seen pass.old) }
        ensures of { IsOf (shared self.now) (Self.Pass.seen pass.new) }
        ensures ran { IfOk result
            (λ a. Ran (seen_with (shared self.now) (Self.Pass.seen pass.old))
            (seen_with (shared self.now) (Self.Pass.seen pass.new))
            (call_script key.now call (given load) moment)
            (record { reply = a.reply; sealed = a.sealed }) a.places.items) }
        ensures stopped { OnErr result
            (StoppedWithin 1 (seen_with (shared self.now) (Self.Pass.seen pass.old))
            (seen_with (shared self.now) (Self.Pass.seen pass.new)) (call_script key.now call (given load) moment)) }
        ensures contents { IfOk result (λ a. AreContents a.reply a.blobs.items) };

    /// How many entries the pass has added, by all its calls. It takes no memory.
    fn made(&self, pass: &Self::Pass) -> u64
        ensures count { result ≡ (Self.Pass.seen pass.now).made };

    /// The served sites, in the order in which the desk was given them. It takes no memory.
    fn served(&self) -> &[SiteId]
        ensures sites { result.now ≡ (shared self.now).realm.served };
}
