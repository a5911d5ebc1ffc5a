// Names, sites, tags and digests, and the values that keep texts.
use crate::fixtures::{MEBIBYTE, NO_MEMORY, filled, key};
use ecr_base::{
    read_name, read_site, read_tag, write_arn, write_arn_at, write_digest, write_upload_id,
    write_uri, write_uri_at,
};
use ecr_model::{Digest, Mem, Rare, SharedText, Text};
use std::alloc::Global;
use std::test::Fail;

/// Whether an optional value is there, in words.
fn told<T>(answer: &Result<Option<T>, Mem>) -> &'static str {
    match answer {
        Ok(Some(_)) => "some",
        Ok(None) => "none",
        Err(_) => NO_MEMORY,
    }
}

/// What a text is as a name, as a site and as a tag.
fn readings(alloc: Global, text: &[u8]) -> (&'static str, &'static str, &'static str) {
    let name = read_name(alloc, text);
    let site = read_site(alloc, text);
    let tag = read_tag(alloc, text);
    (told(&name), told(&site), told(&tag))
}

#[test]
fn texts_are_names_or_none(rt: HostRuntime) -> Result<(), Fail> {
    let alloc = rt.alloc();
    for (front, piece, back, size, read) in [
        ("", "a", "", 0, ("none", "none", "none")),
        ("", "a", "", 2, ("some", "none", "some")),
        ("", "a", "", 128, ("some", "none", "some")),
        ("", "a", "", 129, ("some", "none", "none")),
        ("", "a", "", 256, ("some", "none", "none")),
        ("", "a", "", 257, ("none", "none", "none")),
        ("", "A", "", 100, ("none", "none", "some")),
        ("", "a", "/111122223333", 22, ("some", "some", "none")),
        ("", "a", "/111122223333", 45, ("some", "some", "none")),
        ("", "a", "/111122223333", 46, ("some", "none", "none")),
        ("", "a", "/11112222333", 22, ("some", "none", "none")),
        ("", "a", "", MEBIBYTE, ("none", "none", "none")),
    ] {
        let text = filled(alloc, front, piece, back, size)?;
        assert_eq!(rt; readings(alloc, text.as_bytes()), read, "{size} bytes");
    }
    Ok(())
}

#[test]
fn names_and_digests_are_written(rt: HostRuntime) -> Result<(), Fail> {
    let alloc = rt.alloc();
    for size in [2, 256, MEBIBYTE] {
        let name = filled(alloc, "", "a", "", size)?;
        let key = key(alloc, name.as_str())?;
        assert!(rt; write_arn(alloc, &key).is_ok(), "{size} bytes");
        assert!(rt; write_uri(alloc, &key).is_ok(), "{size} bytes");
        assert!(rt;
            write_arn_at(alloc, &key.site, name.as_bytes()).is_ok(),
            "{size} bytes"
        );
        assert!(rt;
            write_uri_at(alloc, &key.site, name.as_bytes()).is_ok(),
            "{size} bytes"
        );
    }
    for byte in [0, 0xab, 0xff] {
        assert!(rt;
            write_digest(alloc, &Digest { bytes: [byte; 32] }).is_ok(),
            "{byte}"
        );
    }
    for number in [0, 1, 4_294_967_296, 18_446_744_073_709_551_615] {
        assert!(rt; write_upload_id(alloc, number).is_ok(), "{number}");
    }
    Ok(())
}

#[test]
fn texts_are_kept(rt: HostRuntime) -> Result<(), Fail> {
    let alloc = rt.alloc();
    for size in [0, 1, 700, 20_001, 32 * MEBIBYTE] {
        let text = filled(alloc, "", "x", "", size)?;
        assert!(rt;
            Text::copy_of(alloc, text.as_bytes()).is_ok(),
            "{size} bytes"
        );
        assert!(rt;
            SharedText::copy_of(alloc, text.as_bytes()).is_ok(),
            "{size} bytes"
        );
        assert!(rt; Rare::some(alloc, text).is_ok(), "{size} bytes");
    }
    Ok(())
}
