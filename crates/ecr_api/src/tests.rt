// Bodies as they are read, and replies as they are written.

use crate::{ApiRefusal, Asked, read_call, write_refused, write_reply};
use ecr_base::write_uri;
use ecr_blob_upload::Load;
use ecr_http::HttpReply;
use ecr_model::{
    Call, Described, Listed, Mem, Mutability, Name, Page, Refusal, Reply, RepoKey, SharedText,
    SiteId,
};
use std::alloc::Global;
use std::test::Fail;

/// The requests come to the first of these sites.
const SITES: [(&str, &str); 3] = [
    ("us-east-1", "111122223333"),
    ("us-east-1", "444455556666"),
    ("eu-west-1", "777788889999"),
];

#[test]
fn a_body_is_refused_for_its_first_fault(rt: HostRuntime) -> Result<(), Fail> {
    for (action, body, fault) in [
        ("CreateRepository", "", "-"),
        ("CreateRepository", "[1]", "-"),
        ("CreateRepository", "null", "-"),
        ("CreateRepository", r#"{"repositoryName":1}"#, "-"),
        ("CreateRepository", r#"{"repositoryName":"ab"} x"#, "-"),
        ("CreateRepository", r#"{"repositoryName":"\ud800"}"#, "-"),
        (
            "CreateRepository",
            r#"{"registryId":"000000000000","imageTagMutability":false}"#,
            "-",
        ),
        ("CreateRepository", r#"{}"#, "repositoryName"),
        (
            "CreateRepository",
            r#"{"repositoryName":null}"#,
            "repositoryName",
        ),
        (
            "CreateRepository",
            r#"{"repositoryName":"A"}"#,
            "repositoryName",
        ),
        (
            "CreateRepository",
            r#"{"registryId":"000000000000"}"#,
            "registryId",
        ),
        (
            "CreateRepository",
            r#"{"registryId":"777788889999","repositoryName":"ab"}"#,
            "registryId",
        ),
        (
            "CreateRepository",
            r#"{"repositoryName":"ab","imageTagMutability":"mutable"}"#,
            "imageTagMutability",
        ),
        (
            "PutImageTagMutability",
            r#"{"repositoryName":"ab"}"#,
            "imageTagMutability",
        ),
        (
            "DeleteRepository",
            r#"{"repositoryName":"ab","force":"true"}"#,
            "-",
        ),
        (
            "DescribeRepositories",
            r#"{"maxResults":0,"repositoryNames":["ab",null]}"#,
            "-",
        ),
        ("DescribeRepositories", r#"{"maxResults":1.0}"#, "-"),
        ("DescribeRepositories", r#"{"nextToken":7}"#, "-"),
        ("DescribeRepositories", r#"{"maxResults":0}"#, "maxResults"),
        ("DescribeRepositories", r#"{"maxResults":-1}"#, "maxResults"),
        (
            "DescribeRepositories",
            r#"{"maxResults":1001}"#,
            "maxResults",
        ),
        ("DescribeRepositories", r#"{"nextToken":""}"#, "nextToken"),
        ("DescribeRepositories", r#"{"nextToken":"01"}"#, "nextToken"),
        ("DescribeRepositories", r#"{"nextToken":"-0"}"#, "nextToken"),
        ("DescribeRepositories", r#"{"nextToken":"+1"}"#, "nextToken"),
        (
            "DescribeRepositories",
            r#"{"nextToken":"9223372036854775808"}"#,
            "nextToken",
        ),
        (
            "DescribeRepositories",
            r#"{"repositoryNames":[]}"#,
            "repositoryNames",
        ),
        (
            "DescribeRepositories",
            r#"{"repositoryNames":["ab","a"],"maxResults":0}"#,
            "repositoryNames",
        ),
        (
            "DescribeRepositories",
            r#"{"repositoryNames":["ab"],"nextToken":"1"}"#,
            "nextToken",
        ),
        (
            "DescribeRepositories",
            r#"{"repositoryNames":["ab"],"maxResults":1,"nextToken":"1"}"#,
            "maxResults",
        ),
    ] {
        let told = told_at(rt.alloc(), action, body.as_bytes())?;
        let expected = refusal_of(rt.alloc(), fault)?;
        assert_eq!(rt; told.as_str(), expected.as_str(), "{action} {body}");
    }
    Ok(())
}

#[test]
fn a_body_is_read_as_a_call(rt: HostRuntime) -> Result<(), Fail> {
    for (action, body, call) in [
        (
            "CreateRepository",
            r#"{"repositoryName":"team/app","registryId":null,"x":[1]}"#,
            "create MUTABLE 111122223333.dkr.ecr.us-east-1.amazonaws.com/team/app",
        ),
        (
            "CreateRepository",
            r#"{"repositoryName":"A","repositoryName":"ab","imageTagMutability":"IMMUTABLE"}"#,
            "create IMMUTABLE 111122223333.dkr.ecr.us-east-1.amazonaws.com/ab",
        ),
        (
            "PutImageTagMutability",
            r#"{"registryId":"444455556666","repositoryName":"ab","imageTagMutability":"MUTABLE"}"#,
            "set MUTABLE 444455556666.dkr.ecr.us-east-1.amazonaws.com/ab",
        ),
        (
            "DeleteRepository",
            r#"{"repositoryName":"ab","force":true}"#,
            "delete true 111122223333.dkr.ecr.us-east-1.amazonaws.com/ab",
        ),
        (
            "DeleteRepository",
            r#"{"repositoryName":"ab"}"#,
            "delete false 111122223333.dkr.ecr.us-east-1.amazonaws.com/ab",
        ),
        ("DescribeRepositories", r#"{}"#, "page 0 100 111122223333"),
        (
            "DescribeRepositories",
            r#"{"maxResults":1000,"nextToken":"9223372036854775807","registryId":"444455556666"}"#,
            "page 9223372036854775807 1000 444455556666",
        ),
        (
            "DescribeRepositories",
            r#"{"repositoryNames":["ab","no/such"],"nextToken":null}"#,
            "names ab no/such 111122223333",
        ),
    ] {
        let told = told_at(rt.alloc(), action, body.as_bytes())?;
        assert_eq!(rt; told.as_str(), call, "{action} {body}");
    }
    Ok(())
}

#[test]
fn a_target_names_an_action_or_none(rt: HostRuntime) -> Result<(), Fail> {
    let alloc = rt.alloc();
    for target in [
        "",
        "CreateRepository",
        "AmazonEC2ContainerRegistry_V20150921.",
        "AmazonEC2ContainerRegistry_V20150921.createRepository",
        "amazonec2containerregistry_v20150921.CreateRepository",
        "AmazonEC2ContainerRegistry_V20150921.CreateRepository ",
        "AmazonEC2ContainerRegistry_V20150921.CreateRepositories",
        "AmazonECRPublic_V20150921.CreateRepository",
    ] {
        // The body isn't read.
        let told = told_of(alloc, target.as_bytes(), b"[")?;
        assert_eq!(rt;
            told.as_str(),
            r#"{"__type":"UnknownOperationException","message":"unknown operation"}"#,
            "{target}"
        );
    }
    Ok(())
}

#[test]
fn what_is_too_deep_or_too_many_or_no_text_is_refused(rt: HostRuntime) -> Result<(), Fail> {
    let alloc = rt.alloc();
    let page = "page 0 100 111122223333";
    for (before, item, count, after, told) in [
        ("{\"x\":", "[", 126, "]", page),
        ("{\"x\":", "[", 127, "]", "-"),
        (
            "{\"repositoryNames\":[\"ab\"",
            ",\"ab\"",
            100,
            "",
            "repositoryNames",
        ),
    ] {
        let mut body = String::from_str(alloc, before)?;
        for _ in 0..count {
            body.push_str(item)?;
        }
        for _ in 0..count {
            body.push_str(after)?;
        }
        body.push_str(if told == "repositoryNames" { "]}" } else { "}" })?;
        let expected = if told == page {
            String::from_str(alloc, page)?
        } else {
            refusal_of(alloc, told)?
        };
        let read = told_at(alloc, "DescribeRepositories", body.as_bytes())?;
        assert_eq!(rt; read.as_str(), expected.as_str(), "{count} {item}");
    }
    let no_text = told_at(alloc, "DescribeRepositories", b"{\"x\":\"\xff\"}")?;
    assert_eq!(rt; no_text.as_str(), refusal_of(alloc, "-")?.as_str());
    Ok(())
}

#[test]
fn replies_are_written_whole(rt: HostRuntime) -> Result<(), Fail> {
    let alloc = rt.alloc();
    let created = 1700000000;
    let mutability = Mutability::Mutable;
    let reply = Reply::Created {
        created,
        mutability,
    };
    let written = whole(alloc, &app(alloc)?, &reply, false)?;
    assert_eq!(rt;
        written.as_str(),
        "HTTP/1.1 200 OK\r\nContent-Length: 271\r\nContent-Type: application/x-amz-json-1.1\r\n\r\n{\"repository\":{\"createdAt\":1700000000,\"imageTagMutability\":\"MUTABLE\",\"registryId\":\"111122223333\",\"repositoryArn\":\"arn:aws:ecr:us-east-1:111122223333:repository/team/app\",\"repositoryName\":\"team/app\",\"repositoryUri\":\"111122223333.dkr.ecr.us-east-1.amazonaws.com/team/app\"}}"
    );
    let reply = Reply::Deleted {
        created,
        mutability,
    };
    let written = whole(alloc, &app(alloc)?, &reply, true)?;
    assert_eq!(rt;
        written.as_str(),
        "HTTP/1.1 200 OK\r\nConnection: close\r\nContent-Length: 271\r\nContent-Type: application/x-amz-json-1.1\r\n\r\n{\"repository\":{\"createdAt\":1700000000,\"imageTagMutability\":\"MUTABLE\",\"registryId\":\"111122223333\",\"repositoryArn\":\"arn:aws:ecr:us-east-1:111122223333:repository/team/app\",\"repositoryName\":\"team/app\",\"repositoryUri\":\"111122223333.dkr.ecr.us-east-1.amazonaws.com/team/app\"}}"
    );
    let reply = Reply::MutabilitySet { mutability };
    let written = whole(alloc, &app(alloc)?, &reply, false)?;
    assert_eq!(rt;
        written.as_str(),
        "HTTP/1.1 200 OK\r\nContent-Length: 88\r\nContent-Type: application/x-amz-json-1.1\r\n\r\n{\"imageTagMutability\":\"MUTABLE\",\"registryId\":\"111122223333\",\"repositoryName\":\"team/app\"}"
    );
    let reply = Reply::Described {
        rows: rows_of(alloc, 2)?,
        next: Some(12),
    };
    let written = whole(alloc, &page(alloc)?, &reply, false)?;
    assert_eq!(rt;
        written.as_str(),
        "HTTP/1.1 200 OK\r\nContent-Length: 499\r\nContent-Type: application/x-amz-json-1.1\r\n\r\n{\"nextToken\":\"12\",\"repositories\":[{\"createdAt\":7,\"imageTagMutability\":\"IMMUTABLE\",\"registryId\":\"444455556666\",\"repositoryArn\":\"arn:aws:ecr:us-east-1:444455556666:repository/a1\",\"repositoryName\":\"a1\",\"repositoryUri\":\"444455556666.dkr.ecr.us-east-1.amazonaws.com/a1\"},{\"createdAt\":7,\"imageTagMutability\":\"IMMUTABLE\",\"registryId\":\"444455556666\",\"repositoryArn\":\"arn:aws:ecr:us-east-1:444455556666:repository/a1\",\"repositoryName\":\"a1\",\"repositoryUri\":\"444455556666.dkr.ecr.us-east-1.amazonaws.com/a1\"}]}"
    );
    let reply = Reply::Described {
        rows: rows_of(alloc, 0)?,
        next: None,
    };
    let written = whole(alloc, &page(alloc)?, &reply, false)?;
    assert_eq!(rt;
        written.as_str(),
        "HTTP/1.1 200 OK\r\nContent-Length: 19\r\nContent-Type: application/x-amz-json-1.1\r\n\r\n{\"repositories\":[]}"
    );
    let reply = Reply::Refused(Refusal::LimitExceeded { limit: 2, count: 2 });
    let written = whole(alloc, &app(alloc)?, &reply, false)?;
    assert_eq!(rt;
        written.as_str(),
        "HTTP/1.1 400 Bad Request\r\nContent-Length: 65\r\nContent-Type: application/x-amz-json-1.1\r\n\r\n{\"__type\":\"LimitExceededException\",\"message\":\"limit exceeded: 2\"}"
    );
    Ok(())
}

/// A call on `team/app` at the first site.
fn app(alloc: Global) -> Result<Asked, Mem> {
    let site = site_at(alloc, 0)?;
    let name = name_of(alloc, "team/app")?;
    Ok(Asked::Cell {
        key: RepoKey { site, name },
        call: Call::Describe,
        load: Load::Nothing,
    })
}

/// A page of the second site.
fn page(alloc: Global) -> Result<Asked, Mem> {
    Ok(Asked::Many {
        site: site_at(alloc, 1)?,
        names: None,
        page: Page { from: 0, max: 1 },
    })
}

/// The reply as it is sent.
fn whole(alloc: Global, asked: &Asked, reply: &Reply, close: bool) -> Result<String, Fail> {
    let written = write_reply(alloc, asked, reply, &[], close)?;
    let mut text = text_of(alloc, &written.head)?;
    text.push_str(text_of(alloc, &written.tail)?.as_str())?;
    Ok(text)
}

/// So many rows of the same repository.
fn rows_of(alloc: Global, count: u64) -> Result<Listed<Described>, Mem> {
    let mut rows = Vec::new(alloc);
    for _ in 0..count {
        rows.push(Described {
            name: name_of(alloc, "a1")?,
            created: 7,
            mutability: Mutability::Immutable,
        })?;
    }
    Ok(Listed::from_vec(rows))
}

/// The body of the refusal of a member; `-` stands for that of a wrong type.
fn refusal_of(alloc: Global, fault: &str) -> Result<String, Mem> {
    if fault == "-" {
        return String::from_str(
            alloc,
            r#"{"__type":"SerializationException","message":"serialization"}"#,
        );
    }
    format!(in alloc;
        "{{\"__type\":\"InvalidParameterException\",\"message\":\"invalid parameter: {fault}\"}}"
    )
}

/// What a body asks of an action, in words, or the body of its refusal.
fn told_at(alloc: Global, action: &str, body: &[u8]) -> Result<String, Fail> {
    let target = format!(in alloc; "AmazonEC2ContainerRegistry_V20150921.{action}")?;
    told_of(alloc, target.as_bytes(), body)
}

/// What a target and a body ask for, in words, or the body of the refusal.
fn told_of(alloc: Global, target: &[u8], body: &[u8]) -> Result<String, Fail> {
    let base = site_at(alloc, 0)?;
    let mut served = Vec::new(alloc);
    for place in 0..3 {
        served.push(site_at(alloc, place)?)?;
    }
    match read_call(alloc, target, body, &base, &served) {
        Ok(asked) => words_of(alloc, &asked),
        Err(ApiRefusal::Refused(refusal)) => {
            let reply: HttpReply = write_refused(alloc, &refusal, false)?;
            body_of(alloc, &reply)
        }
        Err(ApiRefusal::Mem) => Err(Fail::new("no memory")),
    }
}

/// What stands behind the empty line of a reply.
fn body_of(alloc: Global, reply: &HttpReply) -> Result<String, Fail> {
    let mut text = text_of(alloc, &reply.head)?;
    text.push_str(text_of(alloc, &reply.tail)?.as_str())?;
    match text.as_str().split_once("\r\n\r\n") {
        Some((_, body)) => Ok(String::from_str(alloc, body)?),
        None => Err(Fail::new("no empty line")),
    }
}

/// What is asked, in words.
fn words_of(alloc: Global, asked: &Asked) -> Result<String, Fail> {
    match asked {
        Asked::Cell { key, call, .. } => {
            let call = match call {
                Call::Create { mutability } => match mutability {
                    Mutability::Mutable => "create MUTABLE",
                    Mutability::Immutable => "create IMMUTABLE",
                },
                Call::SetMutability { mutability } => match mutability {
                    Mutability::Mutable => "set MUTABLE",
                    Mutability::Immutable => "set IMMUTABLE",
                },
                Call::Delete { force } => if *force {
                    "delete true"
                } else {
                    "delete false"
                },
                Call::Describe => "describe",
            };
            let uri = write_uri(alloc, key)?;
            Ok(format!(in alloc; "{call} {uri}")?)
        }
        Asked::Site { .. } => Err(Fail::new("a call on a site")),
        Asked::Many { site, names, page } => {
            let account = text_of(alloc, site.account.as_bytes())?;
            match names {
                Some(names) => {
                    let mut words = String::from_str(alloc, "names")?;
                    for name in names.as_slice() {
                        words.push_str(" ")?;
                        words.push_str(text_of(alloc, name.text.as_bytes())?.as_str())?;
                    }
                    Ok(format!(in alloc; "{words} {account}")?)
                }
                None => Ok(format!(in alloc; "page {} {} {account}", page.from, page.max)?),
            }
        }
    }
}

/// The bytes as a text.
fn text_of(alloc: Global, bytes: &[u8]) -> Result<String, Fail> {
    match str::from_utf8(bytes) {
        Ok(text) => Ok(String::from_str(alloc, text)?),
        Err(_) => Err(Fail::new("no text")),
    }
}

/// One of the sites.
fn site_at(alloc: Global, place: usize) -> Result<SiteId, Mem> {
    let (region, account) = SITES[place % 3];
    Ok(SiteId {
        region: SharedText::copy_of(alloc, region.as_bytes())?,
        account: SharedText::copy_of(alloc, account.as_bytes())?,
    })
}

/// The text as a name.
fn name_of(alloc: Global, text: &str) -> Result<Name, Mem> {
    Ok(Name {
        text: SharedText::copy_of(alloc, text.as_bytes())?,
    })
}
