// A manifest of the most layers, and an index of many images.
use crate::timing::print_time;
use std::alloc::{AllocError, Global};
use std::io;

const LAYERS: usize = 127;

const IMAGES: usize = 40_000;

/// Times both.
pub(crate) fn time(rt: &HostRuntime) -> io::Result<()> {
    let alloc = rt.alloc();
    let image = image(alloc)?;
    time_one(rt, "a manifest of 127 layers", image.as_str(), 1000)?;
    let index = index(alloc)?;
    time_one(rt, "an index of 40000 images", index.as_str(), 20)
}

fn time_one(rt: &HostRuntime, name: &str, text: &str, times: u32) -> io::Result<()> {
    let alloc = rt.alloc();
    println!(rt; "{} bytes", text.len())?;
    print_time(rt, name, times, || can_be_read(alloc, text.as_bytes()))
}

/// Whether it is a manifest.
fn can_be_read(alloc: Global, bytes: &[u8]) -> bool {
    bytes.len() < 100_000_000 && ecr_manifest::read(alloc, bytes, None).is_ok()
}

/// An image of so many layers.
fn image(alloc: Global) -> Result<String, AllocError> {
    let config = descriptor(alloc, "application/vnd.oci.image.config.v1+json", 0)?;
    let layers = descriptors(alloc, "application/vnd.oci.image.layer.v1.tar+gzip", LAYERS)?;
    format!(in alloc;
        "{{\"schemaVersion\":2,\"mediaType\":\"application/vnd.oci.image.manifest.v1+json\",\"config\":{config},\"layers\":[{layers}]}}"
    )
}

/// An index of so many images.
fn index(alloc: Global) -> Result<String, AllocError> {
    let manifests = descriptors(alloc, "a/b", IMAGES)?;
    format!(in alloc;
        "{{\"schemaVersion\":2,\"mediaType\":\"application/vnd.oci.image.index.v1+json\",\"manifests\":[{manifests}]}}"
    )
}

/// So many descriptors of different digests.
fn descriptors(alloc: Global, media: &str, many: usize) -> Result<String, AllocError> {
    let mut all = String::new(alloc);
    for number in 0..many {
        if number > 0 {
            all.push_str(",")?;
        }
        all.push_str(descriptor(alloc, media, number)?.as_str())?;
    }
    Ok(all)
}

/// The descriptor of a digest of that number.
fn descriptor(alloc: Global, media: &str, number: usize) -> Result<String, AllocError> {
    // Odd, so that different numbers have different digests, and spread over all of them.
    let first = (number as u64).wrapping_mul(0x9e37_79b9_7f4a_7c15);
    format!(in alloc;
        "{{\"mediaType\":\"{media}\",\"digest\":\"sha256:{first:016x}{number:048x}\",\"size\":{number}}}"
    )
}
