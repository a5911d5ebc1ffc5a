// Facts at single values. The functions do nothing: their contracts are the laws.
ghost use Rattle.ecr_examples.specs.Facts.{FactsHold, JournalsAreSound, PassesAreRead};

/// Which journals are sound.
pub fn journals_are_sound()
    ensures sound { JournalsAreSound }
{}

/// Facts of views, of content and of ends, and of calls of sources and sinks.
pub fn facts_hold()
    ensures hold { FactsHold }
{}

/// The stages of passes.
pub fn passes_are_read()
    ensures read { PassesAreRead }
{}
