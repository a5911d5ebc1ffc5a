// Members that are read, texts that are read thinly, texts in base64 and objects that are written.
use crate::{Builder, Field, Mem, decode_blob, list, object, read_thin, text, truth, whole};
use json::Scratch;
use serde_json::{Map, Value, json};
use std::alloc::Global;
use std::test::Fail;

#[test]
fn a_member_is_absent_wrong_or_here(rt: HostRuntime) -> Result<(), Fail> {
    let alloc = rt.alloc();
    for (written, types) in [
        (r#"{}"#, "-----"),
        (r#"[{"a":1}]"#, "-----"),
        (r#"null"#, "-----"),
        (r#"{"A":1,"":1}"#, "-----"),
        (r#"{"a":null}"#, "-----"),
        (r#"{"a":"x"}"#, "T...."),
        (r#"{"a":""}"#, "T...."),
        (r#"{"a":"1"}"#, "T...."),
        (r#"{"a":1}"#, ".W..."),
        (r#"{"a":0.5}"#, "....."),
        (r#"{"a":false}"#, "..B.."),
        (r#"{"a":[]}"#, "...L."),
        (r#"{"a":[null]}"#, "...L."),
        (r#"{"a":{}}"#, "....O"),
        (r#"{"a":{"a":null}}"#, "....O"),
        (r#"{"a":1,"a":"x"}"#, "T...."),
        (r#"{"a":1,"b":2,"a":null}"#, "-----"),
        (r#"{"a":null,"a":[]}"#, "...L."),
        (r#"{"\u0061":true}"#, "..B.."),
    ]
    .iter()
    {
        let value = Value::from_str(alloc, *written)?;
        let letters = letters(alloc, &value)?;
        assert_eq!(rt; letters.as_str(), *types, "{written}");
    }
    Ok(())
}

/// What the member `a` is to each reader: `-` where it is absent, `.` where it has another type.
fn letters(alloc: Global, value: &Value) -> Result<String, Mem> {
    let text = letter(&text(value, "a"), 'T');
    let whole = letter(&whole(value, "a"), 'W');
    let truth = letter(&truth(value, "a"), 'B');
    let list = letter(&list(value, "a"), 'L');
    let object = letter(&object(value, "a"), 'O');
    format!(in alloc; "{text}{whole}{truth}{list}{object}")
}

/// One letter for what a member is.
fn letter<T>(field: &Field<T>, here: char) -> char {
    match field {
        Field::Absent => '-',
        Field::Wrong => '.',
        Field::Here(_) => here,
    }
}

#[test]
fn values_are_read_as_they_stand(rt: HostRuntime) -> Result<(), Fail> {
    let alloc = rt.alloc();
    for (written, number) in [
        (r#"{"a":0}"#, Field::Here(0)),
        (r#"{"a":-1}"#, Field::Here(-1)),
        (
            r#"{"a":18446744073709551615}"#,
            Field::Here(18446744073709551615),
        ),
        (
            r#"{"a":-9223372036854775808}"#,
            Field::Here(-9223372036854775808),
        ),
        (r#"{"a":18446744073709551616}"#, Field::Wrong),
        (r#"{"a":-9223372036854775809}"#, Field::Wrong),
        (r#"{"a":1.0}"#, Field::Wrong),
        (r#"{"a":1e0}"#, Field::Wrong),
        (r#"{"a":10E-1}"#, Field::Wrong),
        (r#"{"a":-0}"#, Field::Wrong),
        (r#"{"a":1,"a":2}"#, Field::Here(2)),
    ]
    .iter()
    {
        let value = Value::from_str(alloc, *written)?;
        assert!(rt; whole(&value, "a") == *number, "{written}");
    }
    let value = Value::from_str(alloc, r#"{"a":{"a":{"t":"q\"\u00e9","f":true,"l":[1,2]}}}"#)?;
    let Field::Here(outer) = object(&value, "a") else {
        return Err(Fail::new("outer"))
    };
    let Field::Here(inner) = object(outer, "a") else {
        return Err(Fail::new("inner"))
    };
    assert!(rt; text(inner, "t") == Field::Here("q\"é"));
    assert!(rt; truth(inner, "f") == Field::Here(true));
    Ok(())
}

#[test]
fn base64_is_the_standards_alone(rt: HostRuntime) -> Result<(), Fail> {
    let alloc = rt.alloc();
    // RFC 4648, section 10.
    for (written, bytes) in [
        ("", ""),
        ("Zg==", "f"),
        ("Zm8=", "fo"),
        ("Zm9v", "foo"),
        ("Zm9vYg==", "foob"),
        ("Zm9vYmE=", "fooba"),
        ("Zm9vYmFy", "foobar"),
    ]
    .iter()
    {
        match decode_blob(alloc, *written)? {
            Some(blob) => assert_eq!(rt; blob.as_slice(), bytes.as_bytes(), "{written}"),
            None => assert!(rt; false, "{written}"),
        }
    }
    for written in [
        "Zg", "Zg=", "Zg===", "Zh==", "=", "====", "Z", "Zm9v\n", " Zm9v", "Zm8=Zm8=", "_-8=",
        "Zm-v",
    ]
    .iter()
    {
        assert!(rt; decode_blob(alloc, *written)?.is_none(), "{written}");
    }
    Ok(())
}

#[test]
fn an_object_is_written_in_the_order_of_its_names(rt: HostRuntime) -> Result<(), Fail> {
    let alloc = rt.alloc();
    let mut builder = Builder::new(alloc);
    assert_eq!(rt; builder.bytes(alloc)?.as_slice(), b"{}".as_slice());
    builder.put_text("repositoryName", "app/\"a\"\n")?;
    builder.put_whole("size", 1)?;
    builder.put_value("layers", json!(in alloc; [{"b": true, "a": null}])?)?;
    builder.put_whole("size", 18446744073709551615)?;
    builder.put_text("Zone", "é")?;
    assert_eq!(rt;
        builder.bytes(alloc)?.as_slice(),
        "{\"Zone\":\"é\",\"layers\":[{\"a\":null,\"b\":true}],\"repositoryName\":\"app/\\\"a\\\"\\n\",\"size\":18446744073709551615}".as_bytes()
    );
    Ok(())
}

#[test]
fn what_is_kept_of_a_text_is_in_its_tree(rt: HostRuntime) -> Result<(), Fail> {
    let alloc = rt.alloc();
    let mut scratch = Scratch::new(alloc);
    for written in [
        r#""#,
        r#" "#,
        r#"{}"#,
        r#"{"#,
        r#"{}}"#,
        r#"{},"#,
        r#"[]"#,
        r#"[{"a":1}]"#,
        r#"null"#,
        r#"1e999"#,
        r#""a""#,
        r#"{"a":1,"b":"x","c":true}"#,
        r#"{"a":null,"b":false}"#,
        r#"{"a":1,"a":2,"b":[],"b":{}}"#,
        r#"{"a":["x","\u00e9"],"b":["x",1]}"#,
        r#"{"a":[["x"]],"b":{"a":"x"}}"#,
        r#"{"\u0061":"x","A":1,"":2}"#,
        r#"{"a":"\ud800"}"#,
        r#"{"c":"\ud800"}"#,
        r#"{"c":"\x"}"#,
        r#"{"c":1e999}"#,
        r#"{"c":[1e999]}"#,
        r#"{"a":[1e999]}"#,
        r#"{"a":["x",1e999]}"#,
        r#"{"c":{"a":-1e999}}"#,
        r#"{"a":-0,"b":18446744073709551616}"#,
        r#"{"a":0.5,"b":-9223372036854775808}"#,
        r#"{"c":[1,]}"#,
        r#"{"c":{"a"}}"#,
        r#"{"c":[}}"#,
        r#"{"a":["x"}}"#,
        r#"{"a":1 "b":2}"#,
        r#"{"a":01}"#,
        r#"{"c":tru}"#,
    ]
    .iter()
    {
        assert!(rt; agrees(alloc, &mut scratch, *written)?, "{written}");
    }
    for (head, piece, middle, close, tail) in [
        (r#"{"a":"#, "[", "", "]", "}"),
        (r#"{"c":"#, "[", "1", "]", "}"),
        (r#"{"c":"#, r#"{"a":"#, "1", "}", "}"),
        (r#"{"a":["#, r#""x","#, r#""y""#, "", "]}"),
        (r#"{"b":["#, r#""x","#, "1", "", "]}"),
    ]
    .iter()
    {
        for times in [99, 100, 101, 102, 124, 125, 126, 127, 128].iter() {
            let written = repeated(alloc, *head, *piece, *middle, *close, *tail, *times)?;
            assert!(rt;
                agrees(alloc, &mut scratch, written.as_str())?,
                "{head} {times}"
            );
        }
    }
    Ok(())
}

#[test]
fn a_mebibyte_is_read_as_its_tree(rt: HostRuntime) -> Result<(), Fail> {
    let alloc = rt.alloc();
    let mut scratch = Scratch::new(alloc);
    for (head, piece, tail) in [
        (r#"{"a":"#, "[", "}"),
        (r#"{"c":["#, r#"{"k":1},"#, r#"0],"a":1}"#),
        (r#"{"#, r#""c":0,"#, r#""a":"x"}"#),
        (r#"{"a":""#, "x", r#""}"#),
        (r#"{"c":["#, "12345,", r#"1e999]}"#),
        (r#"{"a":["#, r#""x","#, r#""y"]}"#),
        (r#"{"a":["#, r#""x","#, r#"{}],"b":1}"#),
    ]
    .iter()
    {
        let times = (1 << 20) / piece.len();
        let written = repeated(alloc, *head, *piece, "", "", *tail, times)?;
        assert!(rt;
            agrees(alloc, &mut scratch, written.as_str())?,
            "{head}{piece}"
        );
    }
    Ok(())
}

/// The piece so often between the head and the middle, and the close so often behind it.
fn repeated(
    alloc: Global,
    head: &str,
    piece: &str,
    middle: &str,
    close: &str,
    tail: &str,
    times: usize,
) -> Result<String, Mem> {
    let mut written = String::from_str(alloc, head)?;
    for _ in 0..times {
        written.push_str(piece)?;
    }
    written.push_str(middle)?;
    for _ in 0..times {
        written.push_str(close)?;
    }
    written.push_str(tail)?;
    Ok(written)
}

/// Whether the text is read by the names `a` and `b` as its tree has them.
fn agrees(alloc: Global, scratch: &mut Scratch, written: &str) -> Result<bool, Mem> {
    let kept = read_thin(alloc, scratch, &["a", "b"], written)?;
    let all = match Value::from_str(alloc, written) {
        Ok(value) => Some(value),
        Err(error) if error.is_memory() => return Err(Mem),
        Err(_) => None,
    };
    match (&kept, &all) {
        (Some(kept), Some(all)) => {
            let members = is_kept(alloc, kept, all, "a")? && is_kept(alloc, kept, all, "b")?;
            Ok(members && kept.is_object() == all.is_object() && kept.get("c").is_none())
        }
        (None, None) => Ok(true),
        _ => Ok(false),
    }
}

/// Whether the member is kept as the tree has it, thinly.
fn is_kept(alloc: Global, kept: &Value, all: &Value, name: &str) -> Result<bool, Mem> {
    match (kept.get(name), all.get(name)) {
        (Some(kept), Some(all)) => Ok(*kept == thinly(alloc, all)?),
        (None, None) => Ok(true),
        _ => Ok(false),
    }
}

/// The value without what is nested in it; a list of texts has the first 101.
fn thinly(alloc: Global, value: &Value) -> Result<Value, Mem> {
    match value {
        Value::Array(items) => {
            let mut texts = Vec::new(alloc);
            for item in items {
                if !item.is_string() {
                    return Ok(Value::Object(Map::new(alloc)));
                }
                if texts.len() < 101 {
                    texts.push(item.clone()?)?;
                }
            }
            Ok(Value::Array(texts))
        }
        Value::Object(_) => Ok(Value::Object(Map::new(alloc))),
        _ => value.clone(),
    }
}
