// JSON values, tags and sets of prefixes. The functions do nothing: their contracts are the laws.
ghost use Rattle.ecr_examples.specs.Json.{MembersAreFound, PrefixesAreMarked, TagsAreMatched, ValuesAreKept};

/// The members of objects, and base64.
pub fn members_are_found()
    ensures found { MembersAreFound }
{}

/// What is kept of a value that is read thinly.
pub fn values_are_kept()
    ensures kept { ValuesAreKept }
{}

/// Which tags prefixes and patterns match.
pub fn tags_are_matched()
    ensures matched { TagsAreMatched }
{}

/// The prefixes of rules, and their marks.
pub fn prefixes_are_marked()
    ensures marked { PrefixesAreMarked }
{}
