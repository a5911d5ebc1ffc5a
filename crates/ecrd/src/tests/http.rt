// Requests and replies as they read (RFC 9112), in pieces of several sizes.
use crate::tests::harness::check_text;
use ecr_model::End;
use std::test::Fail;

const CREATIONS: &str = r#"
@create
----
@create
====
@made
----
@there
"#;

const BAD_NAMES: &str = r#"
POST / HTTP/1.1
Host: localhost
X-Amz-Target: AmazonEC2ContainerRegistry_V20150921.CreateRepository
Content-Length: *

{"repositoryName":"a"}
----
POST / HTTP/1.1
Host: localhost
X-Amz-Target: AmazonEC2ContainerRegistry_V20150921.CreateRepository
Content-Length: *

{"repositoryName":"a//b"}
----
POST / HTTP/1.1
Host: localhost
X-Amz-Target: AmazonEC2ContainerRegistry_V20150921.CreateRepository
Content-Length: *

[1]
====
@bad name
----
@bad name
----
HTTP/1.1 400 Bad Request
Content-Length: *
Content-Type: application/x-amz-json-1.1

{"__type":"SerializationException","message":"serialization"}
"#;

const OTHER_TARGETS: &str = r#"
PUT / HTTP/1.1
Host: localhost
X-Amz-Target: AmazonEC2ContainerRegistry_V20150921.CreateRepository
Content-Length: *

{"repositoryName":"team/app"}
----
POST /v2/ HTTP/1.1
Host: localhost
X-Amz-Target: AmazonEC2ContainerRegistry_V20150921.CreateRepository
Content-Length: *

{"repositoryName":"team/app"}
----
GET /x HTTP/1.1
Host: x
----
GET /x HTTP/1.1
Host: x
Connection: keep-alive
----
POST /?x HTTP/1.1
Host: localhost
X-Amz-Target: AmazonEC2ContainerRegistry_V20150921.CreateRepository
Content-Length: *

{"repositoryName":"team/app"}
====
@not found
----
@not found
----
@not found
----
@not found
----
@made
"#;

const NO_WAITING: &str = r#"
POST / HTTP/1.1
Host: localhost
X-Amz-Target: AmazonEC2ContainerRegistry_V20150921.CreateRepository
Expect: x
Content-Length: *

{"repositoryName":"team/app"}
====
@made
"#;

const WAITING: &str = r#"
POST / HTTP/1.1
Host: localhost
X-Amz-Target: AmazonEC2ContainerRegistry_V20150921.CreateRepository
Expect: 100-Continue
Content-Length: *

{"repositoryName":"team/app"}
====
HTTP/1.1 100 Continue
----
@made
"#;

const OLD_VERSION: &str = r#"
POST / HTTP/1.0
Host: localhost
X-Amz-Target: AmazonEC2ContainerRegistry_V20150921.CreateRepository
Content-Length: *

{"repositoryName":"team/app"}
----
GET
====
@made and closed
"#;

const CLOSED: &str = r#"
POST / HTTP/1.1
Host: localhost
X-Amz-Target: AmazonEC2ContainerRegistry_V20150921.CreateRepository
Connection: keep-alive , Close
Content-Length: *

{"repositoryName":"team/app"}
----
@create
====
@made and closed
"#;

const OLD_AND_NOWHERE: &str = r#"
GET / HTTP/1.0
----
GET
====
HTTP/1.1 404 Not Found
Connection: close
Content-Length: 0
"#;

// pins: Parses, Stops, AwaitsBody
#[test]
fn sessions_answer_as_they_must(rt: HostRuntime) -> Result<(), Fail> {
    let cases: [(&str, &str); 8] = [
        ("creations", CREATIONS),
        ("bad names", BAD_NAMES),
        ("other targets", OTHER_TARGETS),
        ("no waiting", NO_WAITING),
        ("waiting", WAITING),
        ("an old version", OLD_VERSION),
        ("closed", CLOSED),
        ("old and nowhere", OLD_AND_NOWHERE),
    ];
    for (name, text) in cases {
        check_text(&rt, rt.alloc(), name, text, End::Whole)?;
    }
    Ok(())
}

const TWO_HOSTS: &str = r#"
GET / HTTP/1.1
Host: x
Host: x
====
@bad
"#;

const TWO_LENGTHS: &str = r#"
POST / HTTP/1.1
Host: localhost
X-Amz-Target: AmazonEC2ContainerRegistry_V20150921.CreateRepository
Content-Length: 1
Content-Length: 2
====
@bad
"#;

const LONG_BODY: &str = r#"
POST / HTTP/1.1
Host: localhost
X-Amz-Target: AmazonEC2ContainerRegistry_V20150921.CreateRepository
Content-Length: 33554433
Expect: 100-continue
====
HTTP/1.1 413 Content Too Large
Connection: close
Content-Length: 0
"#;

const A_BODY_AWAITED: &str = r#"
POST / HTTP/1.1
Host: localhost
X-Amz-Target: AmazonEC2ContainerRegistry_V20150921.CreateRepository
Expect: 100-continue
Content-Length: 29
====
HTTP/1.1 100 Continue
"#;

#[test]
fn sessions_end_where_a_request_is_none(rt: HostRuntime) -> Result<(), Fail> {
    let long = End::TooLong {
        at: 0,
        limit: 33_554_432,
    };
    let cases: [(&str, &str, End); 4] = [
        ("two hosts", TWO_HOSTS, End::Bad { at: 0 }),
        ("two lengths", TWO_LENGTHS, End::Bad { at: 0 }),
        ("a long body", LONG_BODY, long),
        ("a body awaited", A_BODY_AWAITED, End::Truncated { at: 0 }),
    ];
    for (name, text, end) in cases {
        check_text(&rt, rt.alloc(), name, text, end)?;
    }
    Ok(())
}
