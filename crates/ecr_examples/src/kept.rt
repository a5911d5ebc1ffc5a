// Journals that grow, and what is kept with them. The functions do nothing: their contracts are the laws.
ghost use Rattle.ecr_examples.specs.Kept.{CallsArePlanned, JournalsGrow, StatesAreKept};

/// Which journals rise, and which go on from others.
pub fn journals_grow()
    ensures grow { JournalsGrow }
{}

/// Directories and repositories with their journals.
pub fn states_are_kept()
    ensures kept { StatesAreKept }
{}

/// What the calls of sources and sinks in memory are to do.
pub fn calls_are_planned()
    ensures planned { CallsArePlanned }
{}
