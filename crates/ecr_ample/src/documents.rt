// Texts that are read: JSON, base64, manifests and policies.
use crate::fixtures::{MEBIBYTE, NO_MEMORY, filled};
use ecr_json::{decode_blob, read_thin};
use ecr_manifest::ManifestRefusal;
use ecr_model::Mem;
use ecr_policy::PolicyRefusal;
use json::Scratch;
use std::alloc::Global;
use std::process::Abort;
use std::test::Fail;

/// Whether an optional value is there, in words.
fn told<T>(answer: &Result<Option<T>, Mem>) -> &'static str {
    match answer {
        Ok(Some(_)) => "some",
        Ok(None) => "none",
        Err(_) => NO_MEMORY,
    }
}

#[test]
fn texts_are_decoded_or_not(rt: HostRuntime) -> Result<(), Fail> {
    let alloc = rt.alloc();
    for (text, answer) in [
        ("", "some"),
        ("Zg==", "some"),
        ("Zm9vYmFy", "some"),
        ("Z", "none"),
        ("Zg", "none"),
        ("Zh==", "none"),
        ("=", "none"),
        ("Zm9v\n", "none"),
        ("Zm-v", "none"),
        ("Zm9v!", "none"),
        ("é", "none"),
    ] {
        assert_eq!(rt; told(&decode_blob(alloc, text)), answer, "{text}");
    }
    Ok(())
}

#[test]
fn a_part_of_20_mebibytes_is_decoded_or_not(rt: HostRuntime) -> Result<(), Fail> {
    let alloc = rt.alloc();
    // 20 MiB are 6,990,506 times three bytes, and two.
    for (back, answer) in [("AAA=", "some"), ("AAB=", "none")] {
        let text = filled(alloc, "", "AAAA", back, 6_990_506 * 4 + back.len())?;
        let decoded = decode_blob(alloc, text.as_str());
        assert_eq!(rt; told(&decoded), answer, "{back}");
        if let Ok(Some(bytes)) = decoded {
            assert_eq!(rt; bytes.len(), 20 * MEBIBYTE);
        }
    }
    Ok(())
}

#[test]
fn texts_are_read_thinly_or_not(rt: HostRuntime) -> Result<(), Fail> {
    let alloc = rt.alloc();
    let mut scratch = Scratch::new(alloc);
    for (front, piece, back, answer) in [
        (r#"{"a":""#, "x", r#""}"#, "some"),
        (r#"{"x":""#, "x", r#""}"#, "some"),
        (r#"{"a":""#, "x", r#""]"#, "none"),
        (r#"{"a":["#, r#""x","#, r#""x"]}"#, "some"),
        (r#"{"a":["#, r#""x","#, r#""x"}"#, "none"),
        (r#"{"x":["#, "12345,", "0]}", "some"),
        (r#"{"x":["#, "12345,", "1e999]}", "none"),
        ("{", r#""x":0,"#, r#""a":1}"#, "some"),
        ("", "[", "", "none"),
    ] {
        for size in [16, 700, 20_001, MEBIBYTE + 1] {
            let text = filled(
                alloc,
                front,
                piece,
                back,
                size.max(front.len() + back.len()),
            )?;
            let read = read_thin(alloc, &mut scratch, &["a"], text.as_str());
            assert_eq!(rt; told(&read), answer, "{front} of {size} bytes");
        }
    }
    for (back, answer) in [(r#""}"#, "some"), (r#""]"#, "none")] {
        let text = filled(alloc, r#"{"a":""#, "x", back, 4 * MEBIBYTE)?;
        let read = read_thin(alloc, &mut scratch, &["a"], text.as_str());
        assert_eq!(rt; told(&read), answer, "4 MiB");
    }
    Ok(())
}

const MANIFEST: &str =
    r#"{"schemaVersion":2,"mediaType":"application/vnd.oci.image.manifest.v1+json","config":{"mediaType":"application/vnd.oci.image.config.v1+json","digest":"sha256:44136fa355b3678a1146ad16f7e8649e94fb4fc21fe77e8310c060f61caaff8a","size":2},"layers":["#;

const LAYER: &str =
    r#"{"mediaType":"application/vnd.oci.image.layer.v1.tar","digest":"sha256:ba7816bf8f01cfea414140de5dae2223b00361a396177a9cb410ff61f20015ad","size":3}"#;

/// The cause for which the bytes, which are below 2^32, aren't a manifest; 0 where they are one, and 255 where there was no
/// memory.
fn manifest_cause(alloc: Global, bytes: &[u8]) -> u8 {
    if bytes.len() > 4_294_967_295 {
        return 255;
    }
    match ecr_manifest::read(alloc, bytes, None) {
        Ok(_) => 0,
        Err(ManifestRefusal::Bad { cause, .. }) => cause,
        Err(ManifestRefusal::Mem) => 255,
    }
}

/// The text is a manifest, or isn't one for that cause, in each size.
fn check_manifest(
    rt: &impl Abort,
    alloc: Global,
    front: &str,
    piece: &str,
    back: &str,
    cause: u8,
) -> Result<(), Mem> {
    for size in [0, 700, 19_999, 20_001, MEBIBYTE + 1] {
        let size = size.max(front.len().saturating_add(back.len()));
        let text = filled(alloc, front, piece, back, size)?;
        assert_eq!(rt;
            manifest_cause(alloc, text.as_bytes()),
            cause,
            "{front} of {size} bytes"
        );
    }
    Ok(())
}

#[test]
fn manifests_are_read_or_refused(rt: HostRuntime) -> Result<(), Fail> {
    let alloc = rt.alloc();
    let layers = format!(in alloc; "{LAYER},")?;
    let last = format!(in alloc; "{LAYER}]}}")?;
    let foreign = format!(in alloc; "{LAYER},7]}}")?;
    check_manifest(&rt, alloc, MANIFEST, layers.as_str(), last.as_str(), 0)?;
    check_manifest(&rt, alloc, MANIFEST, layers.as_str(), foreign.as_str(), 7)?;
    check_manifest(&rt, alloc, MANIFEST, " ", last.as_str(), 0)?;
    check_manifest(&rt, alloc, MANIFEST, layers.as_str(), "", 1)?;
    check_manifest(&rt, alloc, r#"{"x":""#, "x", r#""}"#, 2)?;
    check_manifest(&rt, alloc, r#"{"mediaType":""#, "x", r#""}"#, 4)?;
    for (back, cause) in [(last.as_str(), 0), (foreign.as_str(), 7)] {
        let text = filled(alloc, MANIFEST, " ", back, 4 * MEBIBYTE)?;
        assert_eq!(rt; manifest_cause(alloc, text.as_bytes()), cause, "4 MiB");
    }
    Ok(())
}

const RULE: &str =
    r#"{"rules":[{"rulePriority":1,"selection":{"tagStatus":"any","countType":"imageCountMoreThan","countNumber":1},"action":{"type":"expire"}"#;

const WRONG: &str =
    r#"{"rules":[{"rulePriority":0,"selection":{"tagStatus":"any","countType":"imageCountMoreThan","countNumber":1},"action":{"type":"expire"}"#;

/// The cause for which the text isn't a policy; 0 where it is one, and 255 where there was no memory.
fn policy_cause(alloc: Global, text: &str) -> u8 {
    match ecr_policy::read(alloc, text) {
        Ok(_) => 0,
        Err(PolicyRefusal::Bad { cause, .. }) => cause,
        Err(PolicyRefusal::Mem) => 255,
    }
}

#[test]
fn policies_are_read_or_refused(rt: HostRuntime) -> Result<(), Fail> {
    let alloc = rt.alloc();
    for (front, piece, width, back, cause) in [
        (RULE, " ", 1, "}]}", 0),
        (RULE, " ", 1, "}]", 2),
        (RULE, " ", 1, "},{}]}", 5),
        (WRONG, " ", 1, "}]}", 5),
        ("{\"rules\":[", " ", 1, "]}", 3),
        ("{\"x\":\"", "x", 1, "\"}", 2),
        ("[\"", "語", 3, "\"]", 2),
        ("[\"", "𝄞", 4, "\"]", 2),
    ] {
        for characters in [150, 700, 19_999, 20_001, 30_720] {
            let ends = front.len() + back.len();
            let size = ends + (characters - ends) * width;
            let text = filled(alloc, front, piece, back, size)?;
            assert_eq!(rt;
                policy_cause(alloc, text.as_str()),
                cause,
                "{characters} {front}"
            );
        }
    }
    for (characters, cause) in [(99, 1), (30_721, 1), (MEBIBYTE, 1)] {
        let text = filled(alloc, "", "[", "", characters)?;
        assert_eq!(rt; policy_cause(alloc, text.as_str()), cause, "{characters}");
    }
    Ok(())
}
