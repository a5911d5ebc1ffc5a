// Cells and their journals.
use crate::{Call, Digest, Listed, Moment, Name, Rare, RepoKey, SiteId};

/// A part of the registry that has a journal of its own.
#[derive(Drop)]
pub enum CellKey {
    /// The names of a site.
    Directory(SiteId),
    /// One repository.
    Repository(RepoKey),
}

/// The most that the registry keeps of each kind.
#[derive(Clone, Copy, Debug, PartialEq, Eq)]
pub struct Limits {
    /// Of a site's names, those of deleted repositories among them.
    pub names: u64,
    /// Of a repository's images: below 2^32, so that their places and counts fit.
    pub images: u32,
    /// Of an image's tags.
    pub tags: u64,
    /// Of an upload's parts.
    pub parts: u64,
    /// Of an upload's bytes.
    pub bytes: u64,
}

/// What is fixed throughout a cell's journal.
#[derive(Drop)]
pub struct Frame {
    pub cell: CellKey,
    /// The sites that this registry serves.
    pub served: Listed<SiteId>,
    pub limits: Limits,
}

/// What changed a cell.
#[derive(Drop)]
pub enum Act {
    /// A call on a repository, with what its turn fixed beside it.
    Called {
        call: Call,
        /// Those to which a push is copied; none of another call.
        destinations: Listed<SiteId>,
        /// The digest of all parts of a completed upload; none of another call.
        sealed: Rare<Digest>,
    },
    /// The name was registered in the directory.
    Register(Name),
}

/// A change of a cell.
#[derive(Drop)]
pub struct Entry {
    /// When it was made, in seconds; 0 in a directory.
    pub moment: Moment,
    pub act: Act,
}

/// One line of a journal: an entry, the ticket of the turn that added it, and the number of its caller.
#[derive(Drop)]
pub struct Line {
    pub ticket: u64,
    pub caller: u64,
    pub entry: Entry,
}

/// A cell with all its entries, the first one first.
#[derive(Drop)]
pub struct CellJournal {
    pub cell: CellKey,
    pub entries: Listed<Line>,
}

/// Where in a cell's order a call was decided.
#[derive(Drop)]
pub struct Place {
    pub cell: CellKey,
    pub ticket: u64,
    /// Whether the call added an entry.
    pub changed: bool,
}

impl Limits {
    ghost use Rattle.std.specs.Prelude.{◌≡◌};
    ghost use Rattle.ecr_model.specs.registry.Limits.{standard};

    /// The limits of the program: 100,000 names at a site and images in a repository, 1,000 tags of an image, and
    /// uploads of 4,200 parts and 1,073,741,824 bytes.
    pub fn standard() -> Limits
        ensures limits { result ≡ standard }
    {
        Limits {
            names: 100_000,
            images: 100_000,
            tags: 1_000,
            parts: 4_200,
            bytes: 1_073_741_824,
        }
    }
}
