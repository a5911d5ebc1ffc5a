use crate::{ManifestRefusal, read};
use ecr_model::{Facts, Mem};
use std::alloc::Global;
use std::test::Fail;

const OCI: &str = "application/vnd.oci.image.manifest.v1+json";

const CONFIG: &str =
    r#"{"mediaType":"application/vnd.oci.image.config.v1+json","digest":"sha256:44136fa355b3678a1146ad16f7e8649e94fb4fc21fe77e8310c060f61caaff8a","size":2}"#;

const LAYER: &str =
    r#"{"mediaType":"application/vnd.oci.image.layer.v1.tar","digest":"sha256:ba7816bf8f01cfea414140de5dae2223b00361a396177a9cb410ff61f20015ad","size":3}"#;

const FOREIGN: &str =
    r#"{"mediaType":"application/vnd.oci.image.layer.nondistributable.v1.tar","digest":"sha256:e3b0c44298fc1c149afbf4c8996fb92427ae41e4649b934ca495991b7852b855","size":5}"#;

/// An OCI manifest of that config and these layers.
fn image(alloc: Global, config: &str, layers: &str) -> Result<String, Mem> {
    format!(in alloc;
        "{{\"schemaVersion\":2,\"mediaType\":\"{OCI}\",\"config\":{config},\"layers\":{layers}}}"
    )
}

/// An OCI index of these entries.
fn index(alloc: Global, manifests: &str) -> Result<String, Mem> {
    format!(in alloc;
        "{{\"schemaVersion\":2,\"mediaType\":\"application/vnd.oci.image.index.v1+json\",\"manifests\":{manifests}}}"
    )
}

/// The facts, where the text isn't too long to be tried here.
fn facts_of(alloc: Global, bytes: &[u8], media: Option<&str>) -> Result<Facts, ManifestRefusal> {
    if bytes.len() > 4_194_304 {
        return Err(ManifestRefusal::Mem);
    }
    read(alloc, bytes, media)
}

/// The cause and the entry, or 0 and 0 where there is none.
fn cause_of(alloc: Global, bytes: &[u8], media: Option<&str>) -> Result<(u8, u32), Mem> {
    match facts_of(alloc, bytes, media) {
        Ok(_) => Ok((0, 0)),
        Err(ManifestRefusal::Bad { cause, entry }) => Ok((cause, entry)),
        Err(ManifestRefusal::Mem) => Err(Mem),
    }
}

#[test]
fn the_first_cause_is_answered(rt: HostRuntime) -> Result<(), Fail> {
    let docker = "application/vnd.docker.distribution.manifest.v2+json";
    let schema_1 = "application/vnd.docker.distribution.manifest.v1+json";
    for (text, media, cause) in [
        ("", None, 1),
        ("[]", None, 1),
        ("[]", Some(OCI), 1),
        ("{}", None, 2),
        ("{}", Some(OCI), 5),
        (r#"{"mediaType":null}"#, Some(OCI), 3),
        (r#"{"mediaType":7}"#, None, 3),
        (r#"{"mediaType":"a/b"}"#, Some(OCI), 3),
        (r#"{"mediaType":"a/b"}"#, None, 4),
        (
            r#"{"mediaType":"application/vnd.docker.distribution.manifest.v1+json"}"#,
            None,
            4,
        ),
        ("{}", Some(schema_1), 4),
        (r#"{"schemaVersion":2.0}"#, Some(OCI), 5),
        (r#"{"schemaVersion":"2"}"#, Some(OCI), 5),
        (r#"{"schemaVersion":1}"#, Some(OCI), 5),
        (r#"{"schemaVersion":2}"#, Some(OCI), 6),
        (r#"{"schemaVersion":2}"#, Some(docker), 6),
    ]
    .iter()
    {
        let answer = cause_of(rt.alloc(), text.as_bytes(), *media)?;
        assert_eq!(rt; answer, (*cause, 0), "{text}");
    }
    assert_eq!(rt; cause_of(rt.alloc(), &[b'{', 0xff, b'}'], None)?, (1, 0));
    assert_eq!(rt; cause_of(rt.alloc(), &[b'['; 128], None)?, (1, 0));
    Ok(())
}

#[test]
fn a_text_nests_127_levels(rt: HostRuntime) -> Result<(), Fail> {
    // The object is a level.
    for (lists, cause) in [(126, 5), (127, 1)].iter() {
        let mut text = String::from_str(rt.alloc(), r#"{"a":"#)?;
        for _ in 0..*lists {
            text.push_str("[")?;
        }
        for _ in 0..*lists {
            text.push_str("]")?;
        }
        text.push_str("}")?;
        let answer = cause_of(rt.alloc(), text.as_str().as_bytes(), Some(OCI))?;
        assert_eq!(rt; answer, (*cause, 0));
    }
    Ok(())
}

#[test]
fn a_config_is_a_descriptor(rt: HostRuntime) -> Result<(), Fail> {
    for config in [
        "[]",
        r#"{"mediaType":"a/b","size":2}"#,
        r#"{"mediaType":"a/b","digest":"sha256:44136FA355b3678a1146ad16f7e8649e94fb4fc21fe77e8310c060f61caaff8a","size":2}"#,
        r#"{"mediaType":"a/b","digest":"sha256:44136fa355b3678a1146ad16f7e8649e94fb4fc21fe77e8310c060f61caaff8a","size":-1}"#,
        r#"{"mediaType":"a/b","digest":"sha256:44136fa355b3678a1146ad16f7e8649e94fb4fc21fe77e8310c060f61caaff8a","size":9223372036854775808}"#,
        r#"{"digest":"sha256:44136fa355b3678a1146ad16f7e8649e94fb4fc21fe77e8310c060f61caaff8a","size":2}"#,
    ]
    .iter()
    {
        let text = image(rt.alloc(), config, "{}")?;
        assert_eq!(rt;
            cause_of(rt.alloc(), text.as_str().as_bytes(), None)?,
            (6, 0),
            "{config}"
        );
    }
    Ok(())
}

#[test]
fn an_entry_is_counted_from_1(rt: HostRuntime) -> Result<(), Fail> {
    let text = image(rt.alloc(), CONFIG, "{}")?;
    assert_eq!(rt;
        cause_of(rt.alloc(), text.as_str().as_bytes(), None)?,
        (7, 0)
    );
    let layers = format!(in rt.alloc(); "[{LAYER},{{}},7]")?;
    let text = image(rt.alloc(), CONFIG, layers.as_str())?;
    assert_eq!(rt;
        cause_of(rt.alloc(), text.as_str().as_bytes(), None)?,
        (7, 2)
    );
    let text = index(rt.alloc(), "[7]")?;
    assert_eq!(rt;
        cause_of(rt.alloc(), text.as_str().as_bytes(), None)?,
        (7, 1)
    );
    let manifests = format!(in rt.alloc(); "[{LAYER},{{\"mediaType\":\"a/b\",\"size\":2}}]")?;
    let text = index(rt.alloc(), manifests.as_str())?;
    assert_eq!(rt;
        cause_of(rt.alloc(), text.as_str().as_bytes(), None)?,
        (7, 2)
    );
    let most =
        r#"{"mediaType":"a/b","digest":"sha256:44136fa355b3678a1146ad16f7e8649e94fb4fc21fe77e8310c060f61caaff8a","size":9223372036854775807}"#;
    let layers = format!(in rt.alloc(); "[{LAYER}]")?;
    let text = image(rt.alloc(), most, layers.as_str())?;
    assert_eq!(rt;
        cause_of(rt.alloc(), text.as_str().as_bytes(), None)?,
        (8, 0)
    );
    Ok(())
}

#[test]
fn a_manifest_is_read(rt: HostRuntime) -> Result<(), Fail> {
    let layers = format!(in rt.alloc(); "[{LAYER},{FOREIGN},{LAYER}]")?;
    let text = image(rt.alloc(), CONFIG, layers.as_str())?;
    let given = "  application/vnd.oci.image.manifest.v1+json ; charset=utf-8";
    let facts = facts_of(rt.alloc(), text.as_str().as_bytes(), Some(given))?;
    assert!(rt; !facts.list);
    assert_eq!(rt; facts.media.as_bytes(), OCI.as_bytes());
    assert_eq!(rt; facts.required.as_slice().len(), 2);
    assert_eq!(rt; facts.children.as_slice().len(), 0);
    assert_eq!(rt; facts.size, 13);
    let manifests = format!(in rt.alloc(); "[{LAYER},{CONFIG},{FOREIGN},{LAYER}]")?;
    let text = index(rt.alloc(), manifests.as_str())?;
    let facts = facts_of(rt.alloc(), text.as_str().as_bytes(), None)?;
    assert!(rt; facts.list);
    assert_eq!(rt; facts.required.as_slice().len(), 0);
    assert_eq!(rt; facts.children.as_slice().len(), 3);
    assert_eq!(rt; facts.size, 0);
    Ok(())
}

#[test]
fn ten_thousand_entries_are_read(rt: HostRuntime) -> Result<(), Fail> {
    let mut manifests = String::from_str(rt.alloc(), "[")?;
    for _ in 0..9_999 {
        manifests.push_str(LAYER)?;
        manifests.push_str(",")?;
    }
    manifests.push_str(CONFIG)?;
    manifests.push_str("]")?;
    let text = index(rt.alloc(), manifests.as_str())?;
    let facts = facts_of(rt.alloc(), text.as_str().as_bytes(), None)?;
    assert_eq!(rt; facts.children.as_slice().len(), 2);
    Ok(())
}

#[test]
fn a_manifest_of_four_mebibytes_is_read(rt: HostRuntime) -> Result<(), Fail> {
    let layers = format!(in rt.alloc(); "[{LAYER}]")?;
    let mut text = image(rt.alloc(), CONFIG, layers.as_str())?;
    for _ in text.len()..4_194_304 {
        text.push_str(" ")?;
    }
    let facts = facts_of(rt.alloc(), text.as_str().as_bytes(), None)?;
    assert_eq!(rt; facts.required.as_slice().len(), 2);
    Ok(())
}
