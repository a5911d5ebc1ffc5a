// A turn in a site's directory.
ghost use Rattle.std.specs.Prelude.{◌≡◌, ◌≤◌, IfOk, OnErr};
ghost use Rattle.ecr_model.specs.registry.Journals.{past};
ghost use Rattle.ecr_cells.specs.Deeds.{ask_of, HasContents};
ghost use Rattle.ecr_cells.specs.Turns.{IsDirectoryTurn};

use crate::deed::{Deed, Done};
use ecr_model::Mem;
use ecr_site::{SiteState, a_journal_is_sound};
use std::alloc::Global;

/// Makes the turn of that ticket in the directory, under that caller's number. Without memory nothing changed.
///
/// The ticket is above all in the journal.
pub(crate) fn make(
    state: &mut SiteState,
    alloc: Global,
    ticket: u64,
    caller: u64,
    deed: Deed,
) -> Result<Done, Mem>
    requires later { past state.old.journal ≤ ticket }
    ensures turned { IfOk result (λ done. IsDirectoryTurn state.old state.new ticket caller (ask_of deed) done) }
    ensures contents { IfOk result (λ done. HasContents done) }
    ensures err { OnErr result (state.new ≡ state.old) }
{
    a_journal_is_sound(state);
    match deed {
        Deed::Knows(name) => Ok(Done::Known(state.knows(&name))),
        Deed::Register(name) => {
            let registered = state.register(ticket, caller, &name)?;
            Ok(Done::Registered(registered))
        }
        Deed::OnSite(call) => {
            let reply = state.answer(alloc, call)?;
            Ok(Done::Listed(reply))
        }
        Deed::OnRepository { .. } => Ok(Done::Nothing),
    }
}
