// Images as rows.
ghost use Rattle.std.proofs.Common.{arith};

use crate::{Digest, Facts, Listed, Moment, Tag, Twin};

/// A stored image.
#[derive(Clone, Drop)]
pub struct Row {
    /// Its number in its repository's name, from 1.
    pub birth: u64,
    pub digest: Digest,
    pub facts: Facts,
    /// In bytes.
    pub size: u64,
    /// When it was pushed, in seconds.
    pub pushed: Moment,
    /// In the order of their bytes.
    pub tags: Listed<Tag>,
}

/// An image that a lifecycle policy marks.
#[derive(Clone, Copy, Debug, PartialEq, Eq)]
pub struct Marked {
    pub birth: u64,
    /// The number of its rule.
    pub priority: u32,
}

/// An image that a lifecycle policy would delete (Amazon ECR API Reference, `LifecyclePolicyPreviewResult`).
#[derive(Clone, Drop)]
pub struct PreviewRow {
    pub digest: Digest,
    /// In the order of their bytes.
    pub tags: Listed<Tag>,
    /// When it was pushed, in seconds.
    pub pushed: Moment,
    /// The number of the rule.
    pub priority: u32,
}

/// A required layer as a copy carries it.
#[derive(Clone, Copy, Debug, PartialEq, Eq)]
pub struct BorneLayer {
    pub digest: Digest,
    /// In bytes.
    pub size: u64,
}

/// An image as a copy carries it.
#[derive(Clone, Drop)]
pub struct Borne {
    pub digest: Digest,
    pub facts: Facts,
    pub layers: Listed<BorneLayer>,
}

/// What a copy carries.
#[derive(Clone, Drop)]
pub struct CopyFacts {
    /// That of the pushed image.
    pub digest: Digest,
    pub tag: Option<Tag>,
    /// The pushed image, and before it all that it names, each once and by birth.
    pub bundle: Listed<Borne>,
}

impl Twin for Row {
    ghost same = { λ x y h. Prim.grind arith };
}

impl Twin for PreviewRow {
    ghost same = { λ x y h. Prim.grind arith };
}

impl Twin for BorneLayer {
    ghost same = { λ x y h. Prim.grind arith };
}

impl Twin for Borne {
    ghost same = { λ x y h. Prim.grind arith };
}

impl Twin for CopyFacts {
    ghost same = { λ x y h. Prim.grind arith };
}
