// Patterns with `*` (Amazon ECR User Guide, lifecycle policies, `tagPatternList`).
ghost use Rattle.std.specs.Prelude.{◌≡◌, ◌+◌, ◌≤◌, ◌<◌, ◌∷◌, IsTrue, drop, length};
ghost use Rattle.ecr_tagmatch.specs.Matches.{wild};
ghost use Rattle.ecr_tagmatch.specs.Agreed.{agreed, is_star, is_whole};

/// Whether the pattern matches the tag: `*` matches any run of bytes, also none, and each other byte itself.
///
/// It takes no memory, and at most the time of the pattern's length times the tag's.
#[tactic(auto, using(crate::proofs::WildLemmas::first_place))]
pub fn wild(pattern: &[u8], tag: &[u8]) -> bool
    ensures exact { result ≡ wild pattern.now tag.now }
{
    let matched = agreed(pattern, tag);
    if is_star(pattern, matched) {
        after_star(rest_after(pattern, matched), rest_from(tag, matched))
    } else {
        is_whole(pattern, tag, matched)
    }
}

/// Whether the pattern matches the rest of the tag from some place on.
///
/// The first place at which the bytes before the next `*` match is as good as any later one, so no place before it
/// is gone back to.
#[tactic(auto, using(crate::proofs::WildLemmas::next_places))]
fn after_star(mut pattern: &[u8], mut tag: &[u8]) -> bool
    ensures { result ≡ wild (42 ∷ pattern.now) tag.now }
{
    'places: loop {
        let matched = agreed(pattern, tag);
        if is_star(pattern, matched) {
            pattern = rest_after(pattern, matched);
            tag = rest_from(tag, matched);
        } else if is_whole(pattern, tag, matched) {
            return true;
        } else if tag.is_empty() {
            return false;
        } else {
            tag = rest_from(tag, 1);
        }
    }
}

/// Whether a `*` stands there.
fn is_star(pattern: &[u8], at: usize) -> bool
    ensures exact { result ≡ is_star pattern.now at }
    ensures inside { IsTrue result → at < length pattern.now }
{
    at < pattern.len() && pattern[at] == b'*'
}

/// Whether that many bytes are the whole pattern and the whole tag.
fn is_whole(pattern: &[u8], tag: &[u8], matched: usize) -> bool
    ensures { result ≡ is_whole pattern.now tag.now matched }
{
    matched == pattern.len() && matched == tag.len()
}

/// The bytes from there on.
fn rest_from(bytes: &[u8], at: usize) -> &[u8]
    requires { at ≤ length bytes.now }
    ensures { result.now ≡ drop at bytes.now }
{
    &bytes[at..]
}

/// The bytes after that one.
fn rest_after(bytes: &[u8], at: usize) -> &[u8]
    requires { at < length bytes.now }
    ensures { result.now ≡ drop (at + 1) bytes.now }
{
    &bytes[at + 1..]
}

/// How many bytes before the pattern's first `*` the tag begins with.
fn agreed(pattern: &[u8], tag: &[u8]) -> usize
    ensures exact { result ≡ agreed pattern.now tag.now }
    ensures in_pattern { result ≤ length pattern.now }
    ensures in_tag { result ≤ length tag.now }
{
    let mut at = 0;
    while at < pattern.len() && at < tag.len() && pattern[at] != b'*' && pattern[at] == tag[at] {
        at += 1;
    }
    at
}
