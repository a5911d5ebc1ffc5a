// Manifests of images and of lists, as they are read.
ghost use Rattle.std.proofs.Common.{arith};

use crate::{Digest, Listed, SharedText, Twin};

/// What is kept of a manifest (OCI Image 1.1, image manifest and image index).
#[derive(Clone, Drop)]
pub struct Facts {
    /// Whether it is a manifest list.
    pub list: bool,
    /// Its media type.
    pub media: SharedText,
    /// The digests of the config and of the layers that must be stored, in order, each once.
    pub required: Listed<Digest>,
    /// The digests that a list names, in order, each once.
    pub children: Listed<Digest>,
    /// The stated sizes of the config and of the layers, added up, in bytes; 0 for a list.
    pub size: u64,
}

impl Twin for Facts {
    ghost same = { λ x y h. Prim.grind arith };
}

/// What is kept of a descriptor (OCI Image 1.1, descriptor).
#[derive(Clone, Copy, Debug, PartialEq, Eq)]
pub struct Descriptor {
    pub digest: Digest,
    /// As stated, in bytes.
    pub size: u64,
    /// Whether its media type is that of a layer that needn't be stored.
    pub foreign: bool,
}

/// Why bytes aren't a manifest that is taken.
#[derive(Clone, Copy, Debug, PartialEq, Eq)]
pub struct ManifestFault {
    /// The number of the condition that failed first, from 1.
    pub cause: u8,
    /// The entry of `layers` or `manifests`, from 1, or 0 where it is none of them.
    pub entry: u32,
}
