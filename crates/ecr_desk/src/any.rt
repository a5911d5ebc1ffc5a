// The desk as a session uses it, whether its caller is alone or one among many.
ghost use Rattle.std.specs.Prelude.{◌≡◌, ◌∷◌, [], None, Contains, IfOk, OnErr};
ghost use Rattle.ecr_blob_upload.specs.Loads.{FitsCall, given};
ghost use Rattle.ecr_model.specs.registry.Contents.{AreContents};
ghost use Rattle.ecr_model.specs.requests.Requests.{call_script, site_script};
ghost use Rattle.ecr_model.specs.registry.Soundness.{AreSound};
ghost use Rattle.ecr_model.specs.registry.Views.{journals_of};
ghost use Rattle.ecr_desk.specs.Desks.{DeskState, Ran, StoppedWithin};

use crate::{Answer, SiteAnswer};
use ecr_blob_upload::Load;
use ecr_model::{Call, Mem, Moment, RepoKey, SiteCall, SiteId};
use std::alloc::Global;

/// A registry as one caller uses it, which is alone or one among many.
///
/// Contracts see what the caller has seen of the cells, and how many entries it has added ([`AnyDesk::made`]). A call
/// makes the turns of its script, in their order. One that finds no memory leaves the turns that it made, each of them
/// whole.
pub trait AnyDesk {
    /// The sites and limits, which desk it is, the views of the cells, and the number of entries that were added.
    ghost seen: { Self → DeskState };

    /// A call on the directory of a served site. It has one turn, which without memory isn't made.
    fn registry(&mut self, alloc: Global, site: &SiteId, call: SiteCall) -> Result<SiteAnswer, Mem>
        requires served { Contains (seen self.old).realm.served site.now }
        ensures ran { IfOk result
            (λ a. Ran (seen self.old) (seen self.new) (site_script site.now call) a.reply (a.place ∷ [])) }
        ensures stopped { OnErr result (StoppedWithin 0 (seen self.old) (seen self.new) (site_script site.now call)) };

    /// A call on a repository of a served site, with the content that comes with it.
    ///
    /// Its site's directory has the first turn, which registers the name where the call is CreateRepository. Where the
    /// name is registered, the repository has the second. Without memory at most the name was registered.
    fn call(
        &mut self,
        alloc: Global,
        key: &RepoKey,
        call: Call,
        load: Load,
        moment: Moment,
    ) -> Result<Answer, Mem>
        requires served { Contains (seen self.old).realm.served key.now.site }
        requires fits { FitsCall call load }
        ensures ran { IfOk result
            (λ a. Ran (seen self.old) (seen self.new) (call_script key.now call (given load) moment)
            (record { reply = a.reply; sealed = a.sealed }) a.places.items) }
        ensures stopped { OnErr result
            (StoppedWithin 1 (seen self.old) (seen self.new) (call_script key.now call (given load) moment)) }
        ensures contents { IfOk result (λ a. AreContents a.reply a.blobs.items) };

    /// How many entries the caller has added, by all its calls. It takes no memory.
    fn made(&self) -> u64
        ensures count { result ≡ (seen self.now).made };

    /// The served sites, in the order in which the desk was given them. It takes no memory.
    fn served(&self) -> &[SiteId]
        ensures sites { result.now ≡ (seen self.now).realm.served }

        // A caller that is alone finds every journal sound.
        ensures sound { (seen self.now).gates ≡ None
            → AreSound (seen self.now).realm (journals_of (seen self.now).views) };
}
