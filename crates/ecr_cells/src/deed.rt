// What a turn is to do in its cell, and what came of it.
ghost use Rattle.std.specs.Prelude.{◌≡◌};
ghost use Rattle.ecr_model.specs.requests.Requests.{first_ask};
ghost use Rattle.ecr_cells.specs.Deeds.{ask_of, beyond, changes, is_new, refusal_of, unless_known, FitsDeed};

use ecr_blob_upload::{Load, Outcome};
use ecr_model::{Call, Moment, Name, Refusal, Registered, SiteCall, SiteReply};

/// A question to a cell, with the content that comes with it.
#[derive(Drop)]
pub(crate) enum Deed {
    /// To a directory: whether the name is registered.
    Knows(Name),
    /// To a directory: that the name be registered.
    Register(Name),
    /// A call on a directory.
    OnSite(SiteCall),
    /// A call on a repository.
    OnRepository {
        call: Call,
        load: Load,
        moment: Moment,
    },
}

/// The answer of a cell to a question.
#[derive(Drop)]
pub(crate) enum Done {
    /// Whether the name is registered.
    Known(bool),
    /// The result of registering the name.
    Registered(Registered),
    /// The reply to a call on a directory.
    Listed(SiteReply),
    /// The reply to a call on a repository, with its content.
    Replied(Outcome),
    /// None: a cell of that kind has no such turn.
    Nothing,
}

/// The question of a call's first turn, to the directory of its site: CreateRepository registers its name.
pub(crate) fn first_deed(name: Name, call: &Call) -> Deed
    ensures asks { ask_of result ≡ first_ask name call.now }
    ensures fits { FitsDeed result }
{
    match call {
        Call::Create { .. } => Deed::Register(name),
        _ => Deed::Knows(name),
    }
}

/// Whether the turn added an entry.
pub(crate) fn changes(done: &Done) -> bool
    ensures { result ≡ changes done.now }
{
    match done {
        Done::Known(_) => false,
        Done::Registered(registered) => is_new(*registered),
        Done::Listed(_) => false,
        Done::Replied(outcome) => outcome.changed,
        Done::Nothing => false,
    }
}

/// Whether the registration added an entry.
fn is_new(registered: Registered) -> bool
    ensures { result ≡ is_new registered }
{
    match registered {
        Registered::New => true,
        Registered::Known => false,
        Registered::Full { .. } => false,
    }
}

/// Why a call ends after its first turn; none where the turn in the repository follows.
pub(crate) fn refusal_of(done: &Done) -> Option<Refusal>
    ensures { result ≡ refusal_of done.now }
{
    match done {
        Done::Known(known) => unless_known(*known),
        Done::Registered(registered) => beyond(*registered),
        Done::Listed(_) => Some(Refusal::RepositoryNotFound),
        Done::Replied(_) => Some(Refusal::RepositoryNotFound),
        Done::Nothing => Some(Refusal::RepositoryNotFound),
    }
}

/// A name that isn't registered has no repository.
fn unless_known(known: bool) -> Option<Refusal>
    ensures { result ≡ unless_known known }
{
    if known {
        None
    } else {
        Some(Refusal::RepositoryNotFound)
    }
}

/// A name too many is refused.
fn beyond(registered: Registered) -> Option<Refusal>
    ensures { result ≡ beyond registered }
{
    match registered {
        Registered::New => None,
        Registered::Known => None,
        Registered::Full { limit, count } => Some(Refusal::LimitExceeded { limit, count }),
    }
}
