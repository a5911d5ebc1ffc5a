// Digests without repeats.
ghost use Rattle.std.specs.Prelude.{◌≡◌, ℕ, List, IfOk, not, true, if◌then◌else◌};
ghost use Rattle.std.specs.Bool.{OnFalse};
ghost use Rattle.std.specs.BTreeSet.{contains};
ghost use Rattle.std.specs.Cmp.Lexicographic.{slice_cmp};
ghost use Rattle.std.specs.Ordering.{is_eq, nat_cmp};
ghost use Rattle.ecr_model.specs.documents.Manifests.{each_once};

use ecr_model::{Digest, Listed, Mem};
use std::alloc::Global;
use std::collections::BTreeSet;

/// Each digest once, where it stands first.
#[tactic(auto, unfolding(ecr_model::specs::documents::Manifests::each_once))]
pub(crate) fn each_once(alloc: Global, digests: &[Digest]) -> Result<Listed<Digest>, Mem>
    ensures { IfOk result (λ l. l ≡ each_once digests.now) }
{
    // The set is beside the list, so that a digest is looked up in few steps, whichever digests come.
    let mut seen = BTreeSet::new(alloc);
    let mut kept = Vec::new(alloc);
    for digest in digests {
        if note(&mut seen, digest)? {
            kept.push(*digest)?;
        }
    }
    Ok(Listed::from_vec(kept))
}

/// Adds the digest to the set, and answers whether it is new there.
fn note(seen: &mut BTreeSet<[u8; 32]>, digest: &Digest) -> Result<bool, Mem>
    ensures new { IfOk result (λ new. new ≡ not (contains (slice_cmp nat_cmp) seen.old digest.now.bytes)) }
    ensures added { IfOk result
        (λ new. (q : List ℕ) → contains (slice_cmp nat_cmp) seen.new q ≡
        (if is_eq (slice_cmp nat_cmp digest.now.bytes q) then true else contains (slice_cmp nat_cmp) seen.old q)) }
    ensures same { IfOk result
        (λ new. OnFalse new ((q : List ℕ)
        → contains (slice_cmp nat_cmp) seen.new q ≡ contains (slice_cmp nat_cmp) seen.old q)) }
{
    match seen.insert(digest.bytes) {
        Ok(new) => Ok(new),
        Err(_) => Err(Mem),
    }
}
