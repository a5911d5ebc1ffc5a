// Prefixes and patterns at some tags.
ghost use Rattle.std.specs.Prelude.{◌≡◌, ◌<◌};

use crate::{Tests, all_start, all_wild, starts, wild};
use std::marker::Brand;
use std::sync::ledger::{Blank, Ledger};
use std::test::Fail;

#[test]
fn prefixes_and_patterns_match_tags(rt: HostRuntime) -> Result<(), Fail> {
    for (prefix, tag) in [("", ""), ("", "v1"), ("v1", "v1"), ("v1", "v1.2")].iter() {
        assert!(rt; starts(prefix.as_bytes(), tag.as_bytes()), "{prefix} {tag}");
    }
    for (prefix, tag) in [("v", ""), ("v1.2", "v1"), ("v2", "v1.2"), ("1", "v1")].iter() {
        assert!(rt;
            !starts(prefix.as_bytes(), tag.as_bytes()),
            "{prefix} {tag}"
        );
    }
    for (pattern, tag) in [
        ("", ""),
        ("*", ""),
        ("*", "v1"),
        ("prod*", "prod-a"),
        ("*-b", "beta-b"),
        ("v*.*", "v1.2.3"),
        ("a*ab", "aaab"),
        ("**a**", "bab"),
        ("a*b*c", "abbcc"),
        ("prod*", "prod"),
        ("prod*", "production-1"),
        ("*test*1*2*3", "test123"),
        ("*test*1*2*3", "my-test-1.2.3"),
        ("*test*1*2*3", "test-1-3-2-3"),
    ]
    .iter()
    {
        assert!(rt; wild(pattern.as_bytes(), tag.as_bytes()), "{pattern} {tag}");
    }
    for (pattern, tag) in [
        ("", "v1"),
        ("v", "v1"),
        ("*-c", "beta-b"),
        ("a*ab", "aab-"),
        ("*a*a", "a"),
        ("v?", "v1"),
        ("prod*", "preprod"),
        ("*test*1*2*3", "test-1-3-2"),
        ("*test*1*2*3", "test123-4"),
        ("*test*1*2*3", "tes-1-2-3"),
        (
            "*a*a*a*a*a*a*a*a*a*a*a*a*a*a*a*a*b",
            "aaaaaaaaaaaaaaaaaaaaaaaaaaaaaaaaaaaaaaaaaaaaaaaaaaaaaaaaaaaaaaaa",
        ),
    ]
    .iter()
    {
        assert!(rt;
            !wild(pattern.as_bytes(), tag.as_bytes()),
            "{pattern} {tag}"
        );
    }
    assert!(rt; wild(&[b'*'; 128], &[b'a'; 128]));
    Ok(())
}

#[test]
fn each_prefix_and_each_pattern_needs_a_tag(rt: HostRuntime) -> Result<(), Fail> {
    let answers = answers::<Brand>(Blank::new(1));
    assert_eq!(rt; answers, [true, false, true, false]);
    Ok(())
}

/// What four lists answer at two tags.
fn answers<L: Ledger>(blank: Blank) -> [bool; 4]
    requires name { blank.name ≡ L.name }
    requires parts { blank.parts ≡ L.parts }
    requires some { 0 < blank.parts }
{
    let tags = ["prod-a", "beta-b"];
    let mut tests = Tests::<L>::open(blank);
    [
        all_start(&["prod", "beta"], &tags, &mut tests),
        all_start(&["prod", "gamma"], &tags, &mut tests),
        all_wild(&["prod*", "*-b"], &tags, &mut tests),
        all_wild(&["prod*", "*-c"], &tags, &mut tests),
    ]
}
