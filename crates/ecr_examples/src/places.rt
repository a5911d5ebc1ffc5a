// Places of turns. The function does nothing: its contract is the law.
ghost use Rattle.ecr_examples.specs.Places.{PlacesAreCompared};

/// Which places are above journals, between views, and behind each other.
pub fn places_are_compared()
    ensures compared { PlacesAreCompared }
{}
