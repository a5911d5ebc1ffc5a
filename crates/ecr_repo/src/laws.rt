// What holds of all states. The functions do nothing: their contracts are the laws.
ghost use Rattle.std.specs.Thread.{IsSend};
ghost use Rattle.ecr_repo.specs.StateLaws.{AnAnswerChangesNothing, TheNextTurnIsLater};
ghost use Rattle.ecr_repo.specs.contracts.state.RepoState.{the_row as state};

/// The state of a name may be sent to other threads.
pub fn states_cross_threads()
    ensures send { IsSend state }
{}

/// A call that asks changes nothing, in whatever turn it is answered.
pub fn an_answer_changes_nothing()
    ensures unchanged { AnAnswerChangesNothing }
{}

/// Where a turn's ticket was above all in the journal, so is the next one afterwards.
pub fn the_next_turn_is_later()
    ensures later { TheNextTurnIsLater }
{}
