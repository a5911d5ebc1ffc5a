// The reading of manifests. The functions do nothing: their contracts are the laws.
ghost use Rattle.ecr_examples.specs.Manifests.{DescriptorsAreRead, FactsAreTold, ManifestsAreRefused, MediaTypesAreThese, MembersAreRead};

/// Media types.
pub fn media_types_are_these()
    ensures these { MediaTypesAreThese }
{}

/// Descriptors, and values that are none.
pub fn descriptors_are_read()
    ensures read { DescriptorsAreRead }
{}

/// The members of an image's manifest and of a list.
pub fn members_are_read()
    ensures read { MembersAreRead }
{}

/// The causes for which manifests are refused.
pub fn manifests_are_refused()
    ensures refused { ManifestsAreRefused }
{}

/// The facts of an image's manifest and of a list.
pub fn facts_are_told()
    ensures told { FactsAreTold }
{}
