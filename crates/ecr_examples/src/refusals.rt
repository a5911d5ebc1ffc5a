// The bodies of refusals. The functions do nothing: their contracts are the laws.
ghost use Rattle.ecr_examples.specs.Refusals.{ParametersAreSaid, RefusalsAreSaid, RefusedPartsAreSaid};

/// The text of each parameter, with the whole body of its refusal.
pub fn parameters_are_said()
    ensures said { ParametersAreSaid }
{}

/// The type, the message and the whole body of each other refusal.
pub fn refusals_are_said()
    ensures said { RefusalsAreSaid }
{}

/// The bodies of refused parts.
pub fn refused_parts_are_said()
    ensures said { RefusedPartsAreSaid }
{}
