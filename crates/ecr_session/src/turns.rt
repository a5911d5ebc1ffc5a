// Calls on a desk, whose places are kept. The room for a place is taken before its turn.
ghost use Rattle.std.specs.Prelude.{◌≡◌, ◌++◌, Contains, IfOk, OnErr, OnOk};
ghost use Rattle.ecr_blob_upload.specs.Loads.{FitsCall, given};
ghost use Rattle.ecr_model.specs.registry.Contents.{AreContents};
ghost use Rattle.ecr_model.specs.requests.Requests.{call_script, site_script};
ghost use Rattle.ecr_session.specs.Turns.{RanWith, StoppedWith};

use ecr_blob_upload::{Blob, Load};
use ecr_desk::AnyDesk;
use ecr_model::{Call, Digest, Mem, Moment, Place, Reply, RepoKey, SiteCall, SiteId, SiteReply};
use std::alloc::Global;

/// The reply to a call with the content that it names, and the digest of all parts with which an upload's completion
/// was decided; none of another call.
#[derive(Drop)]
pub(crate) struct Decided {
    pub reply: Reply,
    pub blobs: Vec<Blob>,
    pub sealed: Option<Digest>,
}

/// A call on a repository. It has at most two turns.
pub(crate) fn call_at<D: AnyDesk>(
    alloc: Global,
    desk: &mut D,
    key: &RepoKey,
    call: Call,
    load: Load,
    moment: Moment,
    places: &mut Vec<Place>,
) -> Result<Decided, Mem>
    requires served { Contains (D.seen desk.old).realm.served key.now.site }
    requires fits { FitsCall call load }
    ensures ran { IfOk result
        (λ r. RanWith (D.seen desk.old) (D.seen desk.new) (call_script key.now call (given load) moment)
        (record { reply = r.reply; sealed = r.sealed }) places.old.items places.new.items) }
    ensures contents { IfOk result (λ r. AreContents r.reply r.blobs.items) }
    ensures stopped { OnErr result
        (StoppedWith (D.seen desk.old) (D.seen desk.new)
        (call_script key.now call (given load) moment) places.old.items places.new.items) }
{
    make_room(places)?;
    let answer = desk.call(alloc, key, call, load, moment)?;
    put_behind(places, answer.places)?;
    Ok(Decided {
        reply: answer.reply,
        blobs: answer.blobs,
        sealed: answer.sealed,
    })
}

/// A call on a site's directory.
pub(crate) fn site_at<D: AnyDesk>(
    alloc: Global,
    desk: &mut D,
    site: &SiteId,
    call: SiteCall,
    places: &mut Vec<Place>,
) -> Result<SiteReply, Mem>
    requires served { Contains (D.seen desk.old).realm.served site.now }
    ensures ran { IfOk result
        (λ r. RanWith (D.seen desk.old) (D.seen desk.new)
        (site_script site.now call) r places.old.items places.new.items) }
    ensures stopped { OnErr result
        (StoppedWith (D.seen desk.old) (D.seen desk.new)
        (site_script site.now call) places.old.items places.new.items) }
{
    places.reserve(1)?;
    let answer = desk.registry(alloc, site, call)?;
    places.push_reserved(answer.place);
    Ok(answer.reply)
}

// Takes the room for two more places, where some are there; else the desk's own list of them becomes theirs.
fn make_room(places: &mut Vec<Place>) -> Result<(), Mem>
    ensures { places.new.items ≡ places.old.items }
{
    if places.is_empty() {
        Ok(())
    } else {
        places.reserve(2)
    }
}

// Puts these places behind those before them.
fn put_behind(places: &mut Vec<Place>, more: Vec<Place>) -> Result<(), Mem>
    ensures ok { OnOk result (places.new.items ≡ places.old.items ++ more.items) }
    ensures err { OnErr result (places.new.items ≡ places.old.items) }
{
    let mut more = more;
    if places.is_empty() {
        *places = more;
        Ok(())
    } else {
        places.append(&mut more)
    }
}
