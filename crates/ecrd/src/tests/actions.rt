// Sessions by what is asked and answered (Amazon ECR API Reference).
use crate::tests::harness::{SITES, THERE, WORDS, check_created, created, creation, joined, run};
use ecr_model::End;
use std::alloc::{AllocError, Global};
use std::process::Abort;
use std::test::Fail;

#[test]
fn names_of_each_form_are_created(rt: HostRuntime) -> Result<(), Fail> {
    let longest = joined(rt.alloc(), &[("a", 256)])?;
    let longest = str::from_utf8(&longest).unwrap_or("");
    for name in ["ab", "a__b/c--d", "a.b_c", longest] {
        check_created(
            &rt,
            rt.alloc(),
            &WORDS,
            1700000000,
            "localhost",
            ("us-east-1", "111122223333"),
            name,
        )?;
    }
    Ok(())
}

#[test]
fn a_host_chooses_the_site(rt: HostRuntime) -> Result<(), Fail> {
    let first = ("us-east-1", "111122223333");
    let second = ("eu-west-1", "111122223333");
    let third = ("eu-west-1", "444455556666");
    for (host, site) in [
        ("localhost", first),
        ("111122223333.dkr.ecr.eu-west-1.amazonaws.com", second),
        ("111122223333.DKR.ECR.EU-WEST-1.AMAZONAWS.COM:5000", second),
        ("444455556666.dkr.ecr.eu-west-1.amazonaws.com", third),
        ("api.ecr.eu-west-1.amazonaws.com", second),
        ("api.ecr.eu-west-1.amazonaws.com:", first),
        ("api.ecr.us-west-2.amazonaws.com", first),
        ("999955556666.dkr.ecr.eu-west-1.amazonaws.com", first),
        ("api.ecr.eu-west-1.amazonaws.com:1:2", first),
    ] {
        check_created(&rt, rt.alloc(), &SITES, 1700000000, host, site, "team/app")?;
    }
    Ok(())
}

#[test]
fn a_name_is_of_its_site(rt: HostRuntime) -> Result<(), Fail> {
    let alloc = rt.alloc();
    let here = creation(alloc, "localhost", "team/app")?;
    let there = creation(alloc, "api.ecr.eu-west-1.amazonaws.com", "team/app")?;
    let input = format!(in alloc; "{here}{there}{there}")?;
    let one = created(alloc, 1700000000, ("us-east-1", "111122223333"), "team/app")?;
    let two = created(alloc, 1700000000, ("eu-west-1", "111122223333"), "team/app")?;
    let output = format!(in alloc; "{one}{two}{THERE}")?;
    let (_ended, held) = run(alloc, &SITES, &[], input.as_bytes(), &[])?;
    assert!(rt; held.as_slice() == output.as_bytes());
    Ok(())
}

// pins: IsTime
#[test]
fn a_clock_gives_each_answer_its_moment(rt: HostRuntime) -> Result<(), Fail> {
    let alloc = rt.alloc();
    let site = ("us-east-1", "111122223333");
    let words = ["session", "us-east-1/111122223333"];
    check_created(&rt, alloc, &words, 7, "localhost", site, "team/app")?;
    let first = creation(alloc, "localhost", "team/one")?;
    let second = creation(alloc, "localhost", "team/two")?;
    let input = format!(in alloc; "{first}{second}")?;
    let one = created(alloc, 5, site, "team/one")?;
    let two = created(alloc, 3, site, "team/two")?;
    let output = format!(in alloc; "{one}{two}")?;
    let (_ended, held) = run(alloc, &words, &[5, 3], input.as_bytes(), &[])?;
    assert!(rt; held.as_slice() == output.as_bytes());
    Ok(())
}

#[test]
fn two_thousand_names_are_created(rt: HostRuntime) -> Result<(), Fail> {
    let alloc = rt.alloc();
    let mut input = String::new(alloc);
    for n in 0..2000u32 {
        let name = format!(in alloc; "farm/r{n}")?;
        let request = creation(alloc, "localhost", name.as_str())?;
        input.push_str(request.as_str())?;
    }
    let (ended, _held) = run(alloc, &WORDS, &[], input.as_bytes(), &[])?;
    assert_eq!(rt; ended.end, End::Whole);
    assert_eq!(rt; ended.cuts.len(), 2000);
    let all = ended.cuts.iter().all(|cut| cut.entries == 2 && !cut.failed);
    assert!(rt; all);
    Ok(())
}

// A request for that action with that body.
fn request(alloc: Global, action: &str, body: &str) -> Result<String, AllocError> {
    let size = body.len();
    format!(in alloc;
        "POST / HTTP/1.1\r\nHost: localhost\r\nContent-Length: {size}\r\nX-Amz-Target: AmazonEC2ContainerRegistry_V20150921.{action}\r\n\r\n{body}"
    )
}

// A reply of that status and body.
fn reply(alloc: Global, status: &str, body: &str) -> Result<String, AllocError> {
    let size = body.len();
    format!(in alloc;
        "HTTP/1.1 {status}\r\nContent-Length: {size}\r\nContent-Type: application/x-amz-json-1.1\r\n\r\n{body}"
    )
}

// An action, its body, and the body that is answered; a `__type` in it is that of a refusal.
type Step = (&'static str, &'static str, &'static str);

// The steps of a session of those words are answered like that, one after another.
fn check_steps(
    rt: &impl Abort,
    alloc: Global,
    texts: &[&str],
    steps: &[Step],
) -> Result<(), AllocError> {
    let mut input = String::new(alloc);
    let mut output = String::new(alloc);
    for (action, body, answer) in steps {
        input.push_str(request(alloc, action, body)?.as_str())?;
        let status = if answer.contains("__type") {
            "400 Bad Request"
        } else {
            "200 OK"
        };
        output.push_str(reply(alloc, status, answer)?.as_str())?;
    }
    let (ended, held) = run(alloc, texts, &[], input.as_bytes(), &[])?;
    let held = str::from_utf8(&held).unwrap_or("");
    assert_eq!(rt; held, output.as_str());
    assert_eq!(rt; ended.end, End::Whole);
    Ok(())
}

const APP: &str =
    r#"{"repository":{"createdAt":1700000000,"imageTagMutability":"MUTABLE","registryId":"111122223333","repositoryArn":"arn:aws:ecr:us-east-1:111122223333:repository/team/app","repositoryName":"team/app","repositoryUri":"111122223333.dkr.ecr.us-east-1.amazonaws.com/team/app"}}"#;

const GONE: &str = r#"{"__type":"RepositoryNotFoundException","message":"repository not found"}"#;

#[test]
fn a_repository_comes_and_goes(rt: HostRuntime) -> Result<(), Fail> {
    let name = r#"{"repositoryName":"team/app"}"#;
    let named = r#"{"repositoryNames":["team/app"]}"#;
    let fixed = r#"{"repositoryName":"team/app","imageTagMutability":"IMMUTABLE"}"#;
    check_steps(
        &rt,
        rt.alloc(),
        &WORDS,
        &[
            // A name that was never registered.
            ("DescribeRepositories", named, GONE),
            ("DeleteRepository", name, GONE),
            ("CreateRepository", name, APP),
            (
                "PutImageTagMutability",
                fixed,
                r#"{"imageTagMutability":"IMMUTABLE","registryId":"111122223333","repositoryName":"team/app"}"#,
            ),
            // It is answered as it was.
            (
                "DeleteRepository",
                r#"{"repositoryName":"team/app","force":true}"#,
                r#"{"repository":{"createdAt":1700000000,"imageTagMutability":"IMMUTABLE","registryId":"111122223333","repositoryArn":"arn:aws:ecr:us-east-1:111122223333:repository/team/app","repositoryName":"team/app","repositoryUri":"111122223333.dkr.ecr.us-east-1.amazonaws.com/team/app"}}"#,
            ),
            ("DescribeRepositories", named, GONE),
            // A name without its repository has a place in the page, and no row.
            (
                "DescribeRepositories",
                r#"{"maxResults":1}"#,
                r#"{"repositories":[]}"#,
            ),
            ("CreateRepository", name, APP),
        ],
    )?;
    Ok(())
}

#[test]
fn repositories_are_described_page_by_page(rt: HostRuntime) -> Result<(), Fail> {
    let a1 =
        r#"{"createdAt":1700000000,"imageTagMutability":"MUTABLE","registryId":"111122223333","repositoryArn":"arn:aws:ecr:us-east-1:111122223333:repository/a1","repositoryName":"a1","repositoryUri":"111122223333.dkr.ecr.us-east-1.amazonaws.com/a1"}"#;
    let b1 =
        r#"{"createdAt":1700000000,"imageTagMutability":"IMMUTABLE","registryId":"111122223333","repositoryArn":"arn:aws:ecr:us-east-1:111122223333:repository/b1","repositoryName":"b1","repositoryUri":"111122223333.dkr.ecr.us-east-1.amazonaws.com/b1"}"#;
    let alloc = rt.alloc();
    let made_b1 = format!(in alloc; "{{\"repository\":{b1}}}")?;
    let made_a1 = format!(in alloc; "{{\"repository\":{a1}}}")?;
    let first = format!(in alloc; "{{\"nextToken\":\"1\",\"repositories\":[{a1}]}}")?;
    let second = format!(in alloc; "{{\"repositories\":[{b1}]}}")?;
    let both = format!(in alloc; "{{\"repositories\":[{a1},{b1}]}}")?;
    let asked = format!(in alloc; "{{\"repositories\":[{b1},{a1},{b1}]}}")?;
    let mut input = String::new(alloc);
    let mut output = String::new(alloc);
    for (action, body, answer) in [
        (
            "CreateRepository",
            r#"{"repositoryName":"b1","imageTagMutability":"IMMUTABLE"}"#,
            made_b1.as_str(),
        ),
        (
            "CreateRepository",
            r#"{"repositoryName":"a1"}"#,
            made_a1.as_str(),
        ),
        (
            "DescribeRepositories",
            r#"{"maxResults":1}"#,
            first.as_str(),
        ),
        (
            "DescribeRepositories",
            r#"{"maxResults":1,"nextToken":"1"}"#,
            second.as_str(),
        ),
        (
            "DescribeRepositories",
            r#"{"nextToken":"2"}"#,
            r#"{"repositories":[]}"#,
        ),
        ("DescribeRepositories", "{}", both.as_str()),
        (
            "DescribeRepositories",
            r#"{"repositoryNames":["b1","a1","b1"]}"#,
            asked.as_str(),
        ),
    ]
    .iter()
    {
        input.push_str(request(alloc, action, body)?.as_str())?;
        output.push_str(reply(alloc, "200 OK", answer)?.as_str())?;
    }
    let (ended, held) = run(alloc, &SITES, &[], input.as_bytes(), &[])?;
    let held = str::from_utf8(&held).unwrap_or("");
    assert_eq!(rt; held, output.as_str());
    assert_eq!(rt; ended.end, End::Whole);
    Ok(())
}

#[test]
fn bodies_are_refused_in_one_order(rt: HostRuntime) -> Result<(), Fail> {
    let serialization = r#"{"__type":"SerializationException","message":"serialization"}"#;
    let name =
        r#"{"__type":"InvalidParameterException","message":"invalid parameter: repositoryName"}"#;
    let registry =
        r#"{"__type":"InvalidParameterException","message":"invalid parameter: registryId"}"#;
    check_steps(
        &rt,
        rt.alloc(),
        &SITES,
        &[
            ("CreateRepository", "[1]", serialization),
            ("CreateRepository", r#"{"repositoryName":1}"#, serialization),
            ("CreateRepository", "{}", name),
            (
                "CreateRepository",
                r#"{"registryId":"000000000000","repositoryName":"a"}"#,
                registry,
            ),
            (
                "DeleteRepository",
                r#"{"repositoryName":"a","force":1}"#,
                serialization,
            ),
            (
                "PutImageTagMutability",
                r#"{"repositoryName":"ab"}"#,
                r#"{"__type":"InvalidParameterException","message":"invalid parameter: imageTagMutability"}"#,
            ),
            (
                "DescribeRepositories",
                r#"{"repositoryNames":["ab"],"nextToken":"1"}"#,
                r#"{"__type":"InvalidParameterException","message":"invalid parameter: nextToken"}"#,
            ),
            // The refusals left nothing.
            ("DescribeRepositories", "{}", r#"{"repositories":[]}"#),
            (
                "PutImage",
                "{}",
                r#"{"__type":"UnknownOperationException","message":"unknown operation"}"#,
            ),
        ],
    )?;
    Ok(())
}
