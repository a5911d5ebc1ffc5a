// Sites, repositories, tags, digests and moments.
ghost use Rattle.std.specs.Prelude.{◌≡◌, ◌∷◌, [], Some, refl, bytes_eq};
ghost use Rattle.std.proofs.Common.{arith, rules};
ghost use Rattle.std.specs.Cmp.Rules.{hashing};
ghost use Rattle.std.specs.Cmp.{on_equiv, on_per, on_po, on_total, partial_equiv_from_equiv};
ghost use Rattle.std.specs.Cmp.Lexicographic.{slice_cmp, nat_list_eq_equiv, nat_list_cmp_total, texts_po, texts_ties};
ghost use Rattle.std.specs.Ordering.{nat_cmp};

use crate::{SharedText, Twin};
use std::cmp::Ordering;
use std::hash::{Hash, Hasher};

/// A moment: whole seconds since 1970-01-01T00:00:00Z, at most [`MAX_MOMENT`].
pub type Moment = u64;

/// The last second of the year 9999.
pub const MAX_MOMENT: u64 = 253_402_300_799;

/// A repository's name: the text of it, well formed or not. Names are in the order of their bytes.
#[derive(Clone, Drop)]
pub struct Name {
    pub text: SharedText,
}

/// A tag (OCI Distribution 1.1, "Pulling manifests", `<reference>` as a tag): the text of it, well formed or not.
#[derive(Clone, Drop, PartialEq, Eq, Hash)]
pub struct Tag {
    pub text: SharedText,
}

/// A site: one region of one account. Sites are in the order of their regions, and then of their accounts.
#[derive(Clone, Drop, PartialEq, Eq, PartialOrd, Ord)]
pub struct SiteId {
    /// As `us-east-1`.
    pub region: SharedText,
    /// Twelve digits.
    pub account: SharedText,
}

/// A repository: a name at a site.
#[derive(Clone, Drop)]
pub struct RepoKey {
    pub site: SiteId,
    pub name: Name,
}

/// A SHA-256 digest (FIPS 180-4).
#[derive(Clone, Copy, Debug, PartialEq, Eq)]
pub struct Digest {
    pub bytes: [u8; 32],
}

/// A copy: what the push of that ticket at its source owes to one destination.
#[derive(Clone, Drop)]
pub struct CopyId {
    pub source: RepoKey,
    pub ticket: u64,
    pub to: SiteId,
}

impl Twin for Name {
    ghost same = { λ x y h. Prim.grind arith };
}

impl Twin for Tag {
    ghost same = { λ x y h. Prim.grind arith };
}

impl Twin for SiteId {
    ghost same = { λ x y h. Prim.grind arith };
}

impl Twin for RepoKey {
    ghost same = { λ x y h. Prim.grind arith };
}

impl Twin for Digest {
    ghost same = { λ x y h. Prim.grind arith };
}

impl Twin for CopyId {
    ghost same = { λ x y h. Prim.grind arith };
}

// All bytes are one write.
impl Hash for Digest {
    ghost hash_input = { λ d. d.bytes ∷ [] };

    ghost respects_eq = { Prim.search (hashing, rules) };

    fn hash<H: Hasher>(&self, state: &mut H) {
        state.write(&self.bytes);
    }
}

impl PartialEq for Name {
    ghost eq = { λ a b. bytes_eq a.text b.text };

    ghost laws = { on_per (λ n. n.text) (partial_equiv_from_equiv nat_list_eq_equiv) };

    fn eq(&self, other: &Name) -> bool {
        self.text.as_bytes() == other.text.as_bytes()
    }
}

impl Eq for Name {
    ghost laws = { on_equiv (λ n. n.text) nat_list_eq_equiv };
}

impl PartialOrd for Name {
    ghost partial_cmp = { λ a b. Some (slice_cmp nat_cmp a.text b.text) };

    ghost laws = { on_po (λ n. n.text) texts_po };

    fn partial_cmp(&self, other: &Name) -> Option<Ordering> {
        Some(self.cmp(other))
    }
}

impl Ord for Name {
    ghost cmp = { λ a b. slice_cmp nat_cmp a.text b.text };

    ghost total = { on_total (λ n. n.text) nat_list_cmp_total };

    ghost matches_partial_cmp = { λ a b. refl };

    ghost matches_eq = { λ a b. texts_ties a.text b.text };

    fn cmp(&self, other: &Name) -> Ordering {
        self.text.as_bytes().cmp(other.text.as_bytes())
    }
}

#[cfg(test)]
mod tests {
    use crate::{Digest, SharedText, Tag};
    use std::collections::HashMap;
    use std::test::Fail;

    #[test]
    fn maps_find_tags_and_digests(rt: HostRuntime) -> Result<(), Fail> {
        let latest = Tag {
            text: SharedText::copy_of(rt.alloc(), b"latest")?,
        };
        let digest = Digest { bytes: [7; 32] };
        let mut holders = HashMap::new(rt.alloc());
        holders.insert(latest.clone()?, digest)?;
        assert_eq!(rt; holders.get(&latest).copied(), Some(digest));
        let mut births = HashMap::new(rt.alloc());
        births.insert(digest, 1u64)?;
        assert_eq!(rt; births.get(&digest).copied(), Some(1));
        assert_eq!(rt; births.get(&Digest { bytes: [8; 32] }).copied(), None);
        Ok(())
    }
}
