// Directories: the names of a site, and where their pushes are copied.
ghost use Rattle.std.proofs.Common.{arith};

use crate::{Listed, Name, SiteId, Text, Twin};

/// A rule of a replication configuration (Amazon ECR API Reference, `ReplicationRule`).
#[derive(Clone, Drop)]
pub struct ReplicationRule {
    pub destinations: Listed<SiteId>,
    /// Prefixes of the names that it covers; without one it covers all.
    pub filters: Listed<Text>,
}

/// Where a site's pushes are copied to (Amazon ECR API Reference, `ReplicationConfiguration`).
#[derive(Clone, Drop)]
pub struct Configuration {
    pub rules: Listed<ReplicationRule>,
}

/// All that a site's directory has.
#[derive(Drop)]
pub struct Directory {
    /// The registered names, each once, in the order of their bytes. A name stays when its repository is deleted.
    pub names: Listed<Name>,
    pub configuration: Configuration,
}

/// What became of a name that was to be registered.
#[derive(Clone, Copy, Debug, PartialEq, Eq)]
pub enum Registered {
    /// It is registered from now on.
    New,
    /// It was registered before. Nothing changed.
    Known,
    /// So many names are registered, which is the limit. Nothing changed.
    Full { limit: u64, count: u64 },
}

impl Twin for ReplicationRule {
    ghost same = { λ x y h. Prim.grind arith };
}

impl Twin for Configuration {
    ghost same = { λ x y h. Prim.grind arith };
}
