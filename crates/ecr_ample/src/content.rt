// Blobs and bytes.
use crate::fixtures::{MEBIBYTE, filled};
use ecr_blob_upload::{Blob, Bytes};
use ecr_model::Mem;
use ecr_outside::{SharedSink, Sink};
use std::alloc::Global;
use std::test::Fail;

/// How many of so many shares of a blob were made, all of them kept.
fn shares(alloc: Global, blob: &Blob, count: usize) -> Result<usize, Mem> {
    let mut kept = Vec::new(alloc);
    for _ in 0..count {
        if let Ok(share) = blob.share() {
            kept.push(share)?;
        }
    }
    Ok(kept.len())
}

#[test]
fn a_blob_has_many_owners(rt: HostRuntime) -> Result<(), Fail> {
    let alloc = rt.alloc();
    for size in [0, 3, 20 * MEBIBYTE] {
        let bytes = filled(alloc, "", "x", "", size)?.into_bytes();
        let Ok(blob) = Blob::of(alloc, bytes) else {
            return Err(Fail::new("no memory for a blob"));
        };
        for count in [1, 8, 9, 100, 1_000] {
            assert_eq!(rt; shares(alloc, &blob, count)?, count, "{size} bytes");
        }
        assert_eq!(rt; blob.bytes().len(), size);
    }
    Ok(())
}

#[test]
fn bytes_and_sinks_are_shared(rt: HostRuntime) -> Result<(), Fail> {
    let alloc = rt.alloc();
    for size in [0, 3, 20 * MEBIBYTE] {
        let bytes = filled(alloc, "", "x", "", size)?.into_bytes();
        assert!(rt; Bytes::of(alloc, bytes).is_ok(), "{size} bytes");
    }
    let mut sink = SharedSink::new(alloc)?;
    let mut others = Vec::new(alloc);
    for number in 0..100 {
        match sink.share() {
            Ok(other) => others.push(other)?,
            Err(_) => assert!(rt; false, "no memory for share {number}"),
        }
    }
    let piece = filled(alloc, "", "x", "", MEBIBYTE)?;
    if !piece.as_bytes().is_empty() {
        let _took = sink.write(piece.as_bytes());
    }
    match others.last() {
        Some(other) => assert_eq!(rt; other.held(&rt)?.len(), MEBIBYTE),
        None => assert!(rt; false, "no share"),
    }
    Ok(())
}
