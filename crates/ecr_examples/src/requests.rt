// The members of bodies, and the calls that they make. The functions do nothing: their contracts are the laws.
ghost use Rattle.ecr_examples.specs.Requests.{ActionsAreThese, CallsAreMade, ValuesAreAllowed, ValuesAreFound, ValuesAreTyped};

/// JSON values by the types of members.
pub fn values_are_typed()
    ensures typed { ValuesAreTyped }
{}

/// The values of members, by their names.
pub fn values_are_found()
    ensures found { ValuesAreFound }
{}

/// Which values are allowed.
pub fn values_are_allowed()
    ensures allowed { ValuesAreAllowed }
{}

/// The actions, and the members of their bodies.
pub fn actions_are_these()
    ensures these { ActionsAreThese }
{}

/// The calls that values make.
pub fn calls_are_made()
    ensures made { CallsAreMade }
{}
