use super::*;
use std::process::Abort;

fn assert_encoding(rt: &impl Abort, alloc: Global, bytes: &[u8], encoded: &str) {
    let written = b64url_encode(alloc, bytes).expect(rt, "there is memory");
    assert_eq!(rt; written.as_str(), encoded);
    match b64url_decode(alloc, encoded) {
        Ok(read) => assert_eq!(rt; read.items(), bytes, "{encoded}"),
        Err(_) => panic!(rt; "{encoded} is read"),
    }
    let mut room = [7; 8];
    assert_eq!(rt;
        b64url_decode_slice(encoded, &mut room),
        Some(bytes.len()),
        "{encoded}"
    );
    assert_eq!(rt; room.starts_with(bytes), true, "{encoded}");
}

#[test]
fn bytes_are_written_as_in_rfc_4648(rt: HostRuntime) {
    // Section 10, without padding.
    assert_encoding(&rt, rt.alloc(), b"", "");
    assert_encoding(&rt, rt.alloc(), b"f", "Zg");
    assert_encoding(&rt, rt.alloc(), b"fo", "Zm8");
    assert_encoding(&rt, rt.alloc(), b"foo", "Zm9v");
    assert_encoding(&rt, rt.alloc(), b"foob", "Zm9vYg");
    assert_encoding(&rt, rt.alloc(), b"fooba", "Zm9vYmE");
    assert_encoding(&rt, rt.alloc(), b"foobar", "Zm9vYmFy");
    // A decimal id, and the two characters in which base64url differs from base64.
    assert_encoding(&rt, rt.alloc(), b"1", "MQ");
    assert_encoding(&rt, rt.alloc(), &[251, 252, 253, 254, 255], "-_z9_v8");
}

#[test]
fn a_mac_has_43_characters(rt: HostRuntime) {
    let text = b64url_of_mac(b"abcdefghijklmnopqrstuvwxyz012345");
    assert_eq!(rt;
        text.as_slice(),
        b"YWJjZGVmZ2hpamtsbW5vcHFyc3R1dnd4eXowMTIzNDU".as_slice()
    );
}

#[test]
fn other_texts_are_refused(rt: HostRuntime) {
    let alloc = rt.alloc();
    for text in [
        "MR", "M", "MQ==", "M+", "M/", "Zg\n", " Zg", "Zm9vY", "Zm9vYh",
    ] {
        assert_eq!(rt;
            b64url_decode(alloc, text),
            Err(B64Fault::NotBase64),
            "{text}"
        );
        let mut room = [0; 8];
        assert_eq!(rt; b64url_decode_slice(text, &mut room), None, "{text}");
    }
    let mut room = [0; 5];
    assert_eq!(rt; b64url_decode_slice("Zm9vYmFy", &mut room), None);
}
