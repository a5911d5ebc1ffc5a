// Lists of prefixes and of patterns against the tags of an image (Amazon ECR User Guide, lifecycle policies,
// `tagPrefixList` and `tagPatternList`).
ghost use Rattle.std.specs.Prelude.{◌≡◌, ◌+◌, map};
ghost use Rattle.ecr_tagmatch.specs.Matches.{starts, starts_some, all_start, matches_some, all_wild};

use crate::{Tests, wild};
use std::convert::AsSlice;
use std::sync::ledger::Ledger;

/// Whether the prefix begins the tag.
pub fn starts(prefix: &[u8], tag: &[u8]) -> bool
    ensures exact { result ≡ starts prefix.now tag.now }
{
    tag.starts_with(prefix)
}

/// Whether each prefix begins some tag: one test, which takes no memory.
///
/// It compares each prefix with each tag at most.
pub fn all_start<P: AsSlice<u8>, T: AsSlice<u8>, L: Ledger>(
    prefixes: &[P],
    tags: &[T],
    tests: &mut Tests<L>,
) -> bool
    ensures exact { result ≡ all_start (map P.items prefixes.now) (map T.items tags.now) }
    ensures cost { tests.new ≡ tests.old + 1 }
{
    tests.count();
    for prefix in prefixes {
        if !starts_some(prefix.as_slice(), tags) {
            return false;
        }
    }
    true
}

/// Whether the prefix begins some tag.
fn starts_some<T: AsSlice<u8>>(prefix: &[u8], tags: &[T]) -> bool
    ensures { result ≡ starts_some prefix.now (map T.items tags.now) }
{
    for tag in tags {
        if starts(prefix, tag.as_slice()) {
            return true;
        }
    }
    false
}

/// Whether each pattern matches some tag: one test, which takes no memory.
///
/// It compares each pattern with each tag at most.
pub fn all_wild<P: AsSlice<u8>, T: AsSlice<u8>, L: Ledger>(
    patterns: &[P],
    tags: &[T],
    tests: &mut Tests<L>,
) -> bool
    ensures exact { result ≡ all_wild (map P.items patterns.now) (map T.items tags.now) }
    ensures cost { tests.new ≡ tests.old + 1 }
{
    tests.count();
    for pattern in patterns {
        if !matches_some(pattern.as_slice(), tags) {
            return false;
        }
    }
    true
}

/// Whether the pattern matches some tag.
fn matches_some<T: AsSlice<u8>>(pattern: &[u8], tags: &[T]) -> bool
    ensures { result ≡ matches_some pattern.now (map T.items tags.now) }
{
    for tag in tags {
        if wild(pattern, tag.as_slice()) {
            return true;
        }
    }
    false
}
