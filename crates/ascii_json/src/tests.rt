use super::*;
use serde_json::Value;
use std::test::Fail;

// Texts from Python's `json.dumps(json.loads(text), sort_keys=True, separators=(",", ":"))`.
#[test]
fn json_is_written_in_ascii(rt: HostRuntime) -> Result<(), Fail> {
    for (text, written) in [
        ("{\"b\":\"é\",\"a\":1}", "{\"a\":1,\"b\":\"\\u00e9\"}"),
        (
            "[\"\\\"\\\\\\/\\n\\r\\t\\f\\b\\u0001\\u007f\", \"😀\", -7, true, {}]",
            "[\"\\\"\\\\/\\n\\r\\t\\f\\b\\u0001\\u007f\",\"\\ud83d\\ude00\",-7,true,{}]",
        ),
    ] {
        let value = json_read(rt.alloc(), text.as_bytes())?;
        assert_eq!(rt; json_ascii(rt.alloc(), &value)?.as_str(), written);
    }
    Ok(())
}

#[test]
fn text_of_no_profile_value_is_refused(rt: HostRuntime) -> Result<(), Fail> {
    for (brackets, read) in [(100, true), (101, false)] {
        let mut text = Vec::new(rt.alloc());
        for _ in 0..brackets {
            text.push(b'[')?;
        }
        for _ in 0..brackets {
            text.push(b']')?;
        }
        assert_eq!(rt; json_read(rt.alloc(), text.as_slice()).is_ok(), read);
    }
    for text in [
        b"\"\xff\"".as_slice(),
        b"\"\xc3\"",
        b"",
        b"{} {}",
        b"\"\\ud800\"",
    ] {
        assert!(rt; json_read(rt.alloc(), text).err() == Some(JsonFault::NotJson));
    }
    Ok(())
}

#[test]
fn floats_are_no_profile_values(rt: HostRuntime) -> Result<(), Fail> {
    for text in ["[1.5]", "-0", "1e2", "18446744073709551616"] {
        assert!(rt;
            json_read(rt.alloc(), text.as_bytes()).err() == Some(JsonFault::NotJson),
            "{text}"
        );
        assert!(rt; !is_profile(&Value::from_str(rt.alloc(), text)?), "{text}");
    }
    Ok(())
}
