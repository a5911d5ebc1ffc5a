// What names something, and the limits. The functions do nothing: their contracts are the laws.
ghost use Rattle.ecr_examples.specs.Names.{DigestsAreRead, LimitsAreThese, NamesHaveTheirForm, SitesAreRead, TagsAreRead};

/// Names of repositories, and texts that are none.
pub fn names_have_their_form()
    ensures form { NamesHaveTheirForm }
{}

/// Digests and ids of uploads as texts.
pub fn digests_are_read()
    ensures read { DigestsAreRead }
{}

/// Tags, and texts that are none.
pub fn tags_are_read()
    ensures read { TagsAreRead }
{}

/// Sites, ARNs and URIs.
pub fn sites_are_read()
    ensures read { SitesAreRead }
{}

/// The program's limits, the greatest moment, and how much a session may read.
pub fn limits_are_these()
    ensures these { LimitsAreThese }
{}
