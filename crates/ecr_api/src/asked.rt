// What a request asks for.
ghost use Rattle.std.specs.Prelude.{◌≡◌};
ghost use Rattle.ecr_api.specs.declared.asked.ApiRefusal.TheVariants as refusals;

use ecr_blob_upload::Load;
use ecr_model::{Call, Listed, Mem, Name, Page, Refusal, RepoKey, SiteCall, SiteId};

/// What a request asks for.
#[derive(Drop)]
pub enum Asked {
    /// A call on a repository, with the content that comes with it.
    Cell {
        key: RepoKey,
        call: Call,
        load: Load,
    },
    /// A call on a site's directory.
    Site {
        site: SiteId,
        call: SiteCall,
    },
    /// `DescribeRepositories`: the named repositories, or a page of all.
    Many {
        site: SiteId,
        names: Option<Listed<Name>>,
        page: Page,
    },
}

/// Why a body asks for nothing.
#[derive(Drop)]
pub enum ApiRefusal {
    /// It is refused whatever stands in the registry.
    Refused(Refusal),
    /// There was no memory to read it.
    Mem,
}

impl From<Mem> for ApiRefusal {
    ghost from_gives = { λ error refusal. refusal ≡ refusals.Mem };

    fn from(_error: Mem) -> ApiRefusal {
        ApiRefusal::Mem
    }
}
