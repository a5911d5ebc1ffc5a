// Calls that are read, and replies that are written.
use crate::timing::print_time;
use ecr_api::{Asked, read_call, write_reply};
use ecr_model::{Described, Listed, Mem, Mutability, Name, Page, Reply, SharedText, SiteId};
use std::alloc::Global;
use std::io;

const CREATE: &[u8] = b"AmazonEC2ContainerRegistry_V20150921.CreateRepository";

const DESCRIBE: &[u8] = b"AmazonEC2ContainerRegistry_V20150921.DescribeRepositories";

/// A small call, read and replied to; and a page of 1,000 names, read and replied to.
pub(crate) fn time(rt: &HostRuntime) -> io::Result<()> {
    let alloc = rt.alloc();
    let site = site(alloc)?;
    let served = vec![in alloc; self::site(alloc)?]?;
    let created = Reply::Created {
        created: 1_700_000_000,
        mutability: Mutability::Mutable,
    };
    print_time(rt, "CreateRepository, read and replied to", 100_000, || {
        let body = b"{\"repositoryName\":\"team/app\"}";
        match read_call(alloc, CREATE, body, &site, &served) {
            Ok(asked) => write_reply(alloc, &asked, &created, &[], false).is_ok(),
            Err(_) => false,
        }
    })?;
    print_time(rt, "DescribeRepositories of a page, read", 100_000, || {
        read_call(alloc, DESCRIBE, b"{\"maxResults\":1000}", &site, &served).is_ok()
    })?;
    let asked = Asked::Many {
        site: self::site(alloc)?,
        names: None,
        page: Page { from: 0, max: 1000 },
    };
    let described = Reply::Described {
        rows: rows(alloc, 1000)?,
        next: Some(1000),
    };
    print_time(
        rt,
        "DescribeRepositories of 1,000 names, replied to",
        1000,
        || write_reply(alloc, &asked, &described, &[], false).is_ok(),
    )
}

fn site(alloc: Global) -> Result<SiteId, Mem> {
    Ok(SiteId {
        region: SharedText::copy_of(alloc, b"us-east-1")?,
        account: SharedText::copy_of(alloc, b"111122223333")?,
    })
}

/// So many rows of different names.
fn rows(alloc: Global, count: u32) -> Result<Listed<Described>, Mem> {
    let mut rows = Vec::new(alloc);
    for number in 0..count {
        let name = format!(in alloc; "team/app-{number}")?;
        let name = Name {
            text: SharedText::copy_of(alloc, name.as_bytes())?,
        };
        rows.push(Described {
            name,
            created: 1_700_000_000,
            mutability: Mutability::Mutable,
        })?;
    }
    Ok(Listed::from_vec(rows))
}
