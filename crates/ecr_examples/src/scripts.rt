// The turns of requests in their cells. The functions do nothing: their contracts are the laws.
ghost use Rattle.ecr_examples.specs.Scripts.{CellsAreApart, RunsAreCounted, ScriptsAreRun, TurnsAreMade, ViewsAreRead};

/// What single turns tell, and the entries that they add.
pub fn turns_are_made()
    ensures made { TurnsAreMade }
{}

/// Which cells are the same, and what is kept for each.
pub fn cells_are_apart()
    ensures apart { CellsAreApart }
{}

/// What whole requests are answered.
pub fn scripts_are_run()
    ensures run { ScriptsAreRun }
{}

/// The places and entries of a run.
pub fn runs_are_counted()
    ensures counted { RunsAreCounted }
{}

/// What callers know of cells.
pub fn views_are_read()
    ensures read { ViewsAreRead }
{}
