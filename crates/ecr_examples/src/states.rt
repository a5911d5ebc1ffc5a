// Repositories, directories and their journals. The functions do nothing: their contracts are the laws.
ghost use Rattle.ecr_examples.specs.States.{CallsAreDecided, DirectoriesAreRead, JournalsAreRead};

/// What calls make of a repository, and what they are answered.
pub fn calls_are_decided()
    ensures decided { CallsAreDecided }
{}

/// What lines of a journal lead to.
pub fn journals_are_read()
    ensures read { JournalsAreRead }
{}

/// What registrations make of a directory, and its pages.
pub fn directories_are_read()
    ensures read { DirectoriesAreRead }
{}
