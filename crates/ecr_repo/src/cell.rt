// What a repository's name has, and how each call changes it.
ghost use Rattle.std.specs.Prelude.{◌≡◌, [], ◌∷◌, IfOk, OnErr, None, true, false};
ghost use Rattle.ecr_model.specs.registry.Contents.{AreContents};
ghost use Rattle.ecr_model.specs.declared.requests.reply.Reply.TheVariants as replies;
ghost use Rattle.ecr_model.specs.registry.Steps.{first_state, creates, deletes, describes, sets_mutability, same_mutability};
ghost use Rattle.ecr_repo.specs.Cells.{IsDone, IsMade, AnswersUnchanged, row_of};
ghost use Rattle.ecr_repo.specs.States.{AnswersOnly};

use ecr_blob_upload::Outcome;
use ecr_model::{
    Call, Described, Listed, Mem, Moment, Mutability, Presence, Refusal, Reply, RepoKey,
};
use std::alloc::Global;
use std::marker::Model;

/// What a repository's name has. Contracts see the repository.
#[derive(Drop)]
pub(crate) struct Cell {
    present: Option<Presence>,
}

impl Model for Cell {
    ghost use Rattle.ecr_model.specs.declared.registry.repository.Repository.{Repository};
    ghost use Rattle.ecr_repo.specs.Cells.{repository_of};

    ghost Value = { Repository };

    ghost view = { λ c. repository_of c.present };
}

impl Cell {
    /// A name that was never used.
    #[tactic(auto, unfolding(ecr_model::specs::registry::Steps::first_state))]
    pub(crate) fn new() -> Cell
        ensures { result ≡ first_state }
    {
        Cell { present: None }
    }

    /// Answers a call that changes nothing.
    #[tactic(auto, unfolding(ecr_model::specs::registry::Steps::step))]
    pub(crate) fn answer(&self, alloc: Global, key: &RepoKey, call: &Call) -> Result<Outcome, Mem>
        requires { AnswersOnly call.now }
        ensures { IfOk result (λ out. AnswersUnchanged key.now call.now self.now out) }
    {
        match call {
            Call::Describe => self.describe(alloc, key),
            _ => unreachable!(),
        }
    }

    /// Answers a call and makes its change. After an `Err` nothing changed.
    #[tactic(auto, unfolding(ecr_model::specs::registry::Steps::step))]
    pub(crate) fn change(
        &mut self,
        alloc: Global,
        key: &RepoKey,
        call: &Call,
        moment: Moment,
    ) -> Result<Outcome, Mem>
        ensures made { IfOk result (λ out. IsMade key.now moment call.now self.old self.new out) }
        ensures err { OnErr result (self.new ≡ self.old) }
    {
        match call {
            Call::Create { mutability } => Ok(self.create(alloc, moment, *mutability)),
            Call::Delete { force } => Ok(self.delete(alloc, *force)),
            Call::Describe => self.describe(alloc, key),
            Call::SetMutability { mutability } => Ok(self.set_mutability(alloc, *mutability)),
        }
    }

    // CreateRepository.
    fn create(&mut self, alloc: Global, moment: Moment, mutability: Mutability) -> Outcome
        ensures { IsDone (creates moment mutability self.old) self.old self.new result }
    {
        if self.present.is_some() {
            return refused(alloc, Refusal::RepositoryAlreadyExists);
        }
        self.present = Some(Presence {
            created: moment,
            mutability,
        });
        changed(
            alloc,
            Reply::Created {
                created: moment,
                mutability,
            },
        )
    }

    // DeleteRepository. The reply shows the repository as it was. There are no images yet that could refuse it.
    #[tactic(auto, unfolding(ecr_model::specs::registry::Steps::first_state))]
    fn delete(&mut self, alloc: Global, force: bool) -> Outcome
        ensures { IsDone (deletes force self.old) self.old self.new result }
    {
        match self.present {
            Some(was) => {
                self.present = None;
                changed(
                    alloc,
                    Reply::Deleted {
                        created: was.created,
                        mutability: was.mutability,
                    },
                )
            }
            None => refused(alloc, Refusal::RepositoryNotFound),
        }
    }

    // One row of DescribeRepositories.
    fn describe(&self, alloc: Global, key: &RepoKey) -> Result<Outcome, Mem>
        ensures done { IfOk result (λ out. IsDone (describes key.now self.now) self.now self.now out) }
        ensures changed { IfOk result (λ out. out.changed ≡ false) }
    {
        match self.present {
            Some(is) => Ok(answered(alloc, described(alloc, key, is)?)),
            None => Ok(refused(alloc, Refusal::RepositoryNotFound)),
        }
    }

    // PutImageTagMutability. The value that stands changes nothing.
    fn set_mutability(&mut self, alloc: Global, mutability: Mutability) -> Outcome
        ensures { IsDone (sets_mutability mutability self.old) self.old self.new result }
    {
        match self.present {
            Some(was) => {
                let reply = Reply::MutabilitySet { mutability };
                if is_same(mutability, was.mutability) {
                    return answered(alloc, reply);
                }
                self.present = Some(Presence {
                    created: was.created,
                    mutability,
                });
                changed(alloc, reply)
            }
            None => refused(alloc, Refusal::RepositoryNotFound),
        }
    }
}

// Whether the two are the same.
fn is_same(one: Mutability, other: Mutability) -> bool
    ensures { result ≡ same_mutability one other }
{
    match (one, other) {
        (Mutability::Mutable, Mutability::Mutable) => true,
        (Mutability::Mutable, Mutability::Immutable) => false,
        (Mutability::Immutable, Mutability::Mutable) => false,
        (Mutability::Immutable, Mutability::Immutable) => true,
    }
}

// The reply that shows the repository.
fn described(alloc: Global, key: &RepoKey, is: Presence) -> Result<Reply, Mem>
    ensures { IfOk result (λ reply. reply ≡ replies.Described (row_of key.now is ∷ []) None) }
{
    let name = key.name.clone()?;
    let rows = vec![in alloc;
        Described {
            name,
            created: is.created,
            mutability: is.mutability
        },
    ]?;
    Ok(Reply::Described {
        rows: Listed::from_vec(rows),
        next: None,
    })
}

// Nothing changed.
fn answered(alloc: Global, reply: Reply) -> Outcome
    ensures reply { result.reply ≡ reply }
    ensures changed { result.changed ≡ false }
    ensures contents { AreContents result.reply result.blobs.items }
{
    Outcome {
        reply,
        blobs: Vec::new(alloc),
        changed: false,
    }
}

// Nothing changed, for that cause.
fn refused(alloc: Global, refusal: Refusal) -> Outcome
    ensures reply { result.reply ≡ replies.Refused refusal }
    ensures changed { result.changed ≡ false }
    ensures contents { AreContents result.reply result.blobs.items }
{
    answered(alloc, Reply::Refused(refusal))
}

// The repository changed.
fn changed(alloc: Global, reply: Reply) -> Outcome
    ensures reply { result.reply ≡ reply }
    ensures changed { result.changed ≡ true }
    ensures contents { AreContents result.reply result.blobs.items }
{
    Outcome {
        reply,
        blobs: Vec::new(alloc),
        changed: true,
    }
}
