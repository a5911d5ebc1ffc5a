// What the definitions come to at values that are written out. The function does nothing: its contract is the law.
ghost use Rattle.ecr_pages.specs.examples.Computed.{RowsAreComputed, PlacesAreComputed, PagesAreComputed};

/// Rows, places and pages of a few births.
pub fn pages_are_computed()
    ensures rows { RowsAreComputed }
    ensures places { PlacesAreComputed }
    ensures pages { PagesAreComputed }
{}
