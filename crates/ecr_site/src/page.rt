// The reply to the call for a page of names.
ghost use Rattle.std.specs.Prelude.{◌≡◌, ◌+◌, nat_lt, IfOk};
ghost use Rattle.ecr_model.specs.registry.Directories.{page_reply};
ghost use Rattle.ecr_site.specs.States.{directory_of};

use crate::SiteState;
use ecr_model::{Listed, Mem, Page, SiteReply};
use std::alloc::Global;

/// The names of the page, and whether there are more.
pub(crate) fn page_of(alloc: Global, state: &SiteState, page: Page) -> Result<SiteReply, Mem>
    ensures { IfOk result (λ reply. reply ≡ page_reply page (directory_of state.now)) }
{
    let names = state.names(alloc, page.from, page.max)?;
    Ok(SiteReply::Names {
        names: Listed::from_vec(names),
        more: is_below(page, state.count()),
    })
}

// Whether the page ends below that number. Without the sum of its two, which may be too large.
fn is_below(page: Page, count: u64) -> bool
    ensures { result ≡ nat_lt (page.from + page.max) count }
{
    (page.max as u64) < count.saturating_sub(page.from)
}
