use crate::{PolicyRefusal, read};
use ecr_model::{Choose, Count, Rule, Text};
use std::alloc::{AllocError, Global};
use std::test::Fail;

const ANY: &str =
    r#"{"rulePriority":9,"description":"d","selection":{"tagStatus":"any","countType":"imageCountMoreThan","countNumber":3},"action":{"type":"expire"}}"#;

const ANY_FIRST: &str =
    r#"{"rulePriority":1,"selection":{"tagStatus":"any","countType":"imageCountMoreThan","countNumber":3},"action":{"type":"expire"}}"#;

const UNTAGGED: &str =
    r#"{"rulePriority":1,"selection":{"tagStatus":"untagged","countType":"sinceImagePushed","countUnit":"days","countNumber":14},"action":{"type":"expire"}}"#;

const UNTAGGED_LATER: &str =
    r#"{"rulePriority":2,"selection":{"tagStatus":"untagged","countType":"imageCountMoreThan","countNumber":1},"action":{"type":"expire"}}"#;

const TAGGED: &str =
    r#"{"rulePriority":3,"selection":{"tagStatus":"tagged","tagPrefixList":["a","b"],"countType":"imageCountMoreThan","countNumber":1},"action":{"type":"expire"}}"#;

const SAME_SET: &str =
    r#"{"rulePriority":4,"selection":{"tagStatus":"tagged","tagPrefixList":["b","a","b"],"countType":"imageCountMoreThan","countNumber":2},"action":{"type":"expire"}}"#;

const TOO_GREAT: &str =
    r#"{"rulePriority":2147483648,"selection":{"tagStatus":"any","countType":"imageCountMoreThan","countNumber":1},"action":{"type":"expire"}}"#;

const WITH_POINT: &str =
    r#"{"rulePriority":1,"selection":{"tagStatus":"any","countType":"imageCountMoreThan","countNumber":1.0},"action":{"type":"expire"}}"#;

const NULL: &str =
    r#"{"rulePriority":1,"description":null,"selection":{"tagStatus":"any","countType":"imageCountMoreThan","countNumber":1},"action":{"type":"expire"}}"#;

#[test]
fn a_policy_is_read_or_its_first_cause_is_told(rt: HostRuntime) -> Result<(), Fail> {
    let alloc = rt.alloc();
    for (length, cause) in [(99, 1), (100, 3), (30720, 3), (30721, 1)].iter() {
        let text = padded(alloc, "{\"rules\":[]}", *length)?;
        assert_eq!(rt; told(alloc, text.as_str())?, (0, *cause));
    }
    assert_eq!(rt; told(alloc, policy(alloc, &[ANY; 51])?.as_str())?, (0, 3));
    assert_eq!(rt; told(alloc, policy(alloc, &[ANY, ANY])?.as_str())?, (2, 14));
    assert_eq!(rt; told(alloc, policy(alloc, &[NULL])?.as_str())?, (1, 6));
    assert_eq!(rt; told(alloc, policy(alloc, &[TOO_GREAT])?.as_str())?, (1, 5));
    assert_eq!(rt;
        told(alloc, policy(alloc, &[ANY, WITH_POINT])?.as_str())?,
        (2, 12)
    );
    let later = policy(alloc, &[ANY_FIRST, TAGGED])?;
    assert_eq!(rt; told(alloc, later.as_str())?, (1, 15));
    let twice = policy(alloc, &[UNTAGGED, UNTAGGED_LATER])?;
    assert_eq!(rt; told(alloc, twice.as_str())?, (2, 16));
    let same = policy(alloc, &[SAME_SET, TAGGED])?;
    assert_eq!(rt; told(alloc, same.as_str())?, (2, 17));
    let lawful = policy(alloc, &[ANY, TAGGED, UNTAGGED])?;
    assert_eq!(rt; told(alloc, lawful.as_str())?, (0, 0));
    Ok(())
}

/// A whole policy of 138 characters.
const ONE: &str =
    r#"{"rules":[{"rulePriority":1,"selection":{"tagStatus":"any","countType":"imageCountMoreThan","countNumber":1},"action":{"type":"expire"}}]}"#;

#[test]
fn characters_are_counted(rt: HostRuntime) -> Result<(), Fail> {
    let alloc = rt.alloc();
    assert_eq!(rt; ONE.len(), 138);
    for (length, cause) in [(138, 0), (30720, 0), (30721, 1)].iter() {
        let text = padded(alloc, ONE, *length)?;
        assert_eq!(rt; told(alloc, text.as_str())?, (0, *cause));
    }
    // 30 characters of one byte and so many of three.
    for (many, fault) in [(69, (0, 1)), (70, (1, 5)), (30690, (1, 5)), (30691, (0, 1))].iter() {
        let text = around(
            alloc,
            r#"{"rules":[{"description":""#,
            "語",
            *many,
            r#""}]}"#,
        )?;
        assert_eq!(rt; told(alloc, text.as_str())?, *fault);
    }
    for (character, many, cause) in [
        ("é", 128, 0),
        ("é", 129, 9),
        (r"\u0061", 128, 0),
        (r"\u0061", 129, 9),
    ]
    .iter()
    {
        let list = around(alloc, "[\"", *character, *many, "\"]")?;
        let rule = tagged(alloc, "1", list.as_str())?;
        assert_eq!(rt;
            told(alloc, policy(alloc, &[rule.as_str()])?.as_str())?.1,
            *cause
        );
    }
    Ok(())
}

#[test]
fn the_last_of_two_members_counts(rt: HostRuntime) -> Result<(), Fail> {
    let alloc = rt.alloc();
    for (members, fault) in [
        (r#""rules":[],"rules":["#, (0, 0)),
        (r#""rules":[{}],"rules":["#, (0, 0)),
        (r#""rule":[],"rules":["#, (0, 2)),
    ]
    .iter()
    {
        let text = format!(in alloc; "{{{members}{ANY}]}}")?;
        assert_eq!(rt; told(alloc, text.as_str())?, *fault, "{members}");
    }
    let text = format!(in alloc; "{{\"rules\":[{ANY}],\"rules\":[]}}")?;
    assert_eq!(rt; told(alloc, text.as_str())?, (0, 3));
    // With the object and the list of rules around them these are 127 and 128 levels.
    for (many, fault) in [(125, (1, 4)), (126, (0, 2))].iter() {
        let lists = around(alloc, "{\"rules\":[", "[", *many, "")?;
        let text = around(alloc, lists.as_str(), "]", *many, "]}")?;
        assert_eq!(rt; told(alloc, text.as_str())?, *fault);
    }
    Ok(())
}

#[test]
fn numbers_and_sets_of_prefixes_are_compared(rt: HostRuntime) -> Result<(), Fail> {
    let alloc = rt.alloc();
    for (number, cause) in [
        ("1", 0),
        ("2147483647", 0),
        ("0", 5),
        ("-0", 5),
        ("-1", 5),
        ("1.0", 5),
        ("1e0", 5),
        ("\"1\"", 5),
        ("2147483648", 5),
        ("4294967297", 5),
    ]
    .iter()
    {
        let rule = tagged(alloc, *number, "[\"a\"]")?;
        assert_eq!(rt;
            told(alloc, policy(alloc, &[rule.as_str()])?.as_str())?.1,
            *cause,
            "{number}"
        );
    }
    for (list, other, cause) in [
        (r#"["a","b"]"#, r#"["b","a","b"]"#, 17),
        (r#"["a","a"]"#, r#"["\u0061"]"#, 17),
        (r#"["b","a","é"]"#, r#"["é","b","a"]"#, 17),
        (r#"["a","b"]"#, r#"["b","c","a"]"#, 0),
        (r#"["b","c","a"]"#, r#"["a","b"]"#, 0),
        (r#"["ab"]"#, r#"["a","b"]"#, 0),
    ]
    .iter()
    {
        let first = tagged(alloc, "1", *list)?;
        let second = tagged(alloc, "2", *other)?;
        let text = policy(alloc, &[first.as_str(), second.as_str()])?;
        assert_eq!(rt; told(alloc, text.as_str())?.1, *cause, "{list} {other}");
    }
    Ok(())
}

/// The list of 99 times the text `a` and then that one.
fn hundred(alloc: Global, last: usize) -> Result<String, AllocError> {
    let list = around(alloc, "[", "\"a\",", 99, "")?;
    format!(in alloc; "{list}\"p{last}\"]")
}

/// How many of the texts are that one.
fn count_of(texts: &[Text], text: &[u8]) -> usize {
    let mut count = 0usize;
    for other in texts {
        if other.as_bytes() == text {
            count = count.saturating_add(1);
        }
    }
    count
}

/// Whether the rule has that number, a hundred prefixes, of which 99 are `a` and one is the last, and a count of one
/// image.
fn is_hundred(rule: &Rule, number: u32, last: &str) -> bool {
    let Choose::Prefixes(texts) = &rule.choose else {
        return false;
    };
    let texts = texts.as_slice();
    let ones = count_of(texts, b"a");
    let lasts = count_of(texts, last.as_bytes());
    let counts = rule.count == Count::MoreThan(1);
    rule.priority == number && counts && texts.len() == 100 && ones == 99 && lasts == 1
}

#[test]
fn fifty_rules_of_a_hundred_prefixes_are_read(rt: HostRuntime) -> Result<(), Fail> {
    let alloc = rt.alloc();
    let mut text = String::from_str(alloc, "{\"rules\":[")?;
    for number in 1..51usize {
        let digits = format!(in alloc; "{}", 51 - number)?;
        let list = hundred(alloc, 51 - number)?;
        if number > 1 {
            text.push_str(",")?;
        }
        text.push_str(tagged(alloc, digits.as_str(), list.as_str())?.as_str())?;
    }
    text.push_str("]}")?;
    let text = padded(alloc, text.as_str(), 30720)?;
    let Ok(policy) = read(alloc, text.as_str()) else {
        return Err(AllocError.into());
    };
    assert!(rt; policy.text.as_bytes() == text.as_bytes());
    assert_eq!(rt; policy.rules.as_slice().len(), 50);
    for (at, rule) in policy.rules.as_slice().iter().enumerate() {
        let last = format!(in alloc; "p{}", at + 1)?;
        assert!(rt; is_hundred(rule, (at + 1) as u32, last.as_str()), "{at}");
    }
    Ok(())
}

/// A rule of that number, by a list of prefixes.
fn tagged(alloc: Global, number: &str, list: &str) -> Result<String, AllocError> {
    format!(in alloc;
        "{{\"rulePriority\":{number},\"selection\":{{\"tagStatus\":\"tagged\",\"tagPrefixList\":{list},\"countType\":\"imageCountMoreThan\",\"countNumber\":1}},\"action\":{{\"type\":\"expire\"}}}}"
    )
}

/// The text so many times, with what stands in front of it and behind it.
fn around(
    alloc: Global,
    front: &str,
    text: &str,
    many: usize,
    back: &str,
) -> Result<String, AllocError> {
    let mut whole = String::from_str(alloc, front)?;
    for _ in 0..many {
        whole.push_str(text)?;
    }
    whole.push_str(back)?;
    Ok(whole)
}

/// The rule and the cause, which are 0 where the text is a policy.
fn told(alloc: Global, text: &str) -> Result<(u32, u8), AllocError> {
    match read(alloc, text) {
        Ok(_) => Ok((0, 0)),
        Err(PolicyRefusal::Bad { rule, cause }) => Ok((rule, cause)),
        Err(PolicyRefusal::Mem) => Err(AllocError),
    }
}

/// The text with spaces behind it.
fn padded(alloc: Global, text: &str, length: usize) -> Result<String, AllocError> {
    let mut padded = String::from_str(alloc, text)?;
    for _ in text.len()..length {
        padded.push_str(" ")?;
    }
    Ok(padded)
}

/// The text of a policy of these rules.
fn policy(alloc: Global, rules: &[&str]) -> Result<String, AllocError> {
    let mut text = String::from_str(alloc, "{\"rules\":[")?;
    for (at, rule) in rules.iter().enumerate() {
        if at > 0 {
            text.push_str(",")?;
        }
        text.push_str(*rule)?;
    }
    text.push_str("]}")?;
    Ok(text)
}
