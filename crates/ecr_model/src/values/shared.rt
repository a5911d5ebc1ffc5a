// Text that many values have.
ghost use Rattle.std.specs.Prelude.{◌≡◌, List, ℕ, IfOk, Some, refl, bytes_eq};
ghost use Rattle.std.specs.Arc.{arc_value};
ghost use Rattle.std.specs.Cmp.{on_equiv, on_per, on_po, on_total, partial_equiv_from_equiv};
ghost use Rattle.std.specs.Cmp.Lexicographic.{slice_cmp, nat_list_eq_equiv, nat_list_cmp_total, texts_po, texts_ties};
ghost use Rattle.std.specs.Ordering.{nat_cmp};
ghost use Rattle.std.proofs.Common.{rules};
ghost use Rattle.std.specs.Hash as fed;
ghost use Rattle.std.specs.Cmp.Rules.{hashing};

use crate::{Mem, Twin};
use std::alloc::Global;
use std::cmp::Ordering;
use std::convert::AsSlice;
use std::hash::{Hash, Hasher};
use std::marker::Model;
use std::sync::Arc;

/// Bytes that many values have and that never change, such as a repository's name, which its key, its journal and its
/// places have. A copy shares them: an `Arc` counts their owners. Contracts see the list of the bytes. Their order is
/// that of their bytes.
#[derive(Drop)]
pub struct SharedText {
    bytes: Arc<Vec<u8>>,
}

impl Model for SharedText {
    ghost Value = { List ℕ };

    ghost view = { λ t. (arc_value t.bytes).items };
}

impl SharedText {
    /// A copy of these bytes.
    pub fn copy_of(alloc: Global, bytes: &[u8]) -> Result<SharedText, Mem>
        ensures copied { IfOk result (λ t. t ≡ bytes.now) }
    {
        let bytes = Vec::from_slice(alloc, bytes)?;
        let bytes = Arc::new(alloc, bytes)?;
        Ok(SharedText { bytes })
    }

    /// The bytes.
    pub fn as_bytes(&self) -> &[u8]
        ensures text { result.now ≡ self.now }
    {
        self.bytes.as_slice()
    }
}

impl AsSlice<u8> for SharedText {
    ghost items = { λ t. t };

    fn as_slice(&self) -> &[u8] {
        self.bytes.as_slice()
    }
}

impl Clone for SharedText {
    ghost is_clone = { λ text copy. copy ≡ text };

    fn clone(&self) -> Result<SharedText, Mem> {
        let bytes = Arc::try_clone(&self.bytes)?;
        Ok(SharedText { bytes })
    }
}

impl Twin for SharedText {
    ghost same = { λ text copy is. is };
}

impl PartialEq for SharedText {
    ghost eq = { bytes_eq };

    ghost laws = { on_per (λ (t : List ℕ). t) (partial_equiv_from_equiv nat_list_eq_equiv) };

    fn eq(&self, other: &SharedText) -> bool {
        self.as_bytes() == other.as_bytes()
    }
}

impl Eq for SharedText {
    ghost laws = { on_equiv (λ (t : List ℕ). t) nat_list_eq_equiv };
}

// As a `str` is hashed: the bytes, and then 255.
impl Hash for SharedText {
    ghost hash_input = { fed.str };

    ghost respects_eq = { Prim.search (hashing, rules) };

    fn hash<H: Hasher>(&self, state: &mut H) {
        state.write(self.as_bytes());
        state.write_u8(255);
    }
}

impl PartialOrd for SharedText {
    ghost partial_cmp = { λ a b. Some (slice_cmp nat_cmp a b) };

    ghost laws = { on_po (λ (t : List ℕ). t) texts_po };

    fn partial_cmp(&self, other: &SharedText) -> Option<Ordering> {
        Some(self.cmp(other))
    }
}

impl Ord for SharedText {
    ghost cmp = { slice_cmp nat_cmp };

    ghost total = { on_total (λ (t : List ℕ). t) nat_list_cmp_total };

    ghost matches_partial_cmp = { λ a b. refl };

    ghost matches_eq = { texts_ties };

    fn cmp(&self, other: &SharedText) -> Ordering {
        self.as_bytes().cmp(other.as_bytes())
    }
}
