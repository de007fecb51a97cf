use super::*;

const LONG_KEY: &[u8] = &[0xaa; 131];

// The hex digits of bytes, for comparing with what the RFCs print.
fn is_hex(bytes: &[u8], text: &str) -> bool {
    let digits = text.as_bytes();
    if digits.len() / 2 != bytes.len() || digits.len() > 128 {
        return false;
    }
    let mut written = [0; 128];
    match hex::encode_to_slice(bytes, &mut written[..digits.len()]) {
        Ok(()) => &written[..digits.len()] == digits,
        Err(_) => false,
    }
}

#[test]
fn hmac_sha256_rfc4231(rt: HostRuntime) {
    for (key, message, mac) in [
        (
            [0x0b; 20].as_slice(),
            "Hi There",
            "b0344c61d8db38535ca8afceaf0bf12b881dc200c9833da726e9376c2e32cff7",
        ),
        (
            b"Jefe",
            "what do ya want for nothing?",
            "5bdcc146bf60754e6a042426089575c75a003f089d2739839dec58b964ec3843",
        ),
        (
            LONG_KEY,
            "Test Using Larger Than Block-Size Key - Hash Key First",
            "60e431591ee0b67f0d8a26aacbf5b77f8e0bc6213728c5140546040f0ee37f54",
        ),
    ] {
        assert!(rt;
            is_hex(&hmac_sha256(key, message.as_bytes()), mac),
            "{message}"
        );
    }
}

#[test]
fn hmac_sha1_rfc2202(rt: HostRuntime) {
    let mac = hmac_sha1(b"Jefe", b"what do ya want for nothing?");
    assert!(rt; is_hex(&mac, "effcdf6ae5eb2fa2d27416d5f184df9c259a7c79"));
}

// The value is Python's: hmac.new(b"k" * 64, b"m", hashlib.sha256).hexdigest().
#[test]
fn a_key_of_one_block_is_taken_as_it_is(rt: HostRuntime) {
    let mac = hmac_sha256(&[b'k'; 64], b"m");
    assert!(rt;
        is_hex(
            &mac,
            "3b7a8d453e76edb519238a515105a57508d0f169f480ebeee120a9e7803289fa"
        )
    );
}

#[test]
fn a_mac_is_fed_in_parts_and_copied(rt: HostRuntime) {
    let keyed = Hmac256::new(b"Jefe");
    let mut mac = keyed.copy();
    mac.update(b"what do ya want ");
    mac.update(b"for nothing?");
    let whole = hmac_sha256(b"Jefe", b"what do ya want for nothing?");
    assert_eq!(rt; mac.finish(), whole);
    let mut again = keyed;
    again.update(b"what do ya want for nothing?");
    assert_eq!(rt; again.finish(), whole);
}

// The value is Django 4.2's: salted_hmac("salt", "value", secret="secret", algorithm="sha256").
#[test]
fn a_salted_mac_is_django_s(rt: HostRuntime) {
    let mac = salted_hmac(b"salt", b"value", b"secret");
    assert!(rt;
        is_hex(
            &mac,
            "debaddcd9ecbaab181289870baf8af49b0af0a7050d620d1a63f1e69bd87ceb8"
        )
    );
    let mut key = Salted::new();
    key.key_part(b"sa");
    key.key_part(b"ltsecret");
    let mut parts = key.into_mac();
    parts.update(b"value");
    assert_eq!(rt; parts.finish(), mac);
}

#[test]
fn pbkdf2_sha256_rfc7914(rt: HostRuntime) {
    let mut key = [0; 64];
    pbkdf2_sha256(b"passwd", b"salt", 1, &mut key);
    assert!(rt;
        is_hex(
            &key,
            "55ac046e56e3089fec1691c22544b605f94185216dde0465e68b9d57c20dacbc49ca9cccf179b645991664b39d77ef317c71b845b1e30bd509112041d3a19783",
        )
    );
}

#[test]
fn pbkdf2_sha1_rfc6070(rt: HostRuntime) {
    for (count, derived) in [
        (1, "0c60c80f961f0e71f3a9b524af6012062fe037a6"),
        (2, "ea6c014dc72d6f8ccd1ed92ace1d41f0d8de8957"),
        (4096, "4b007901b765489abead49d926f721d065a429c1"),
    ] {
        let mut key = [0; 20];
        pbkdf2_sha1(b"password", b"salt", count, &mut key);
        assert!(rt; is_hex(&key, derived), "{count} rounds");
    }
    // A key that ends inside its second block.
    let mut long = [0; 25];
    pbkdf2_sha1(
        b"passwordPASSWORDpassword",
        b"saltSALTsaltSALTsaltSALTsaltSALTsalt",
        4096,
        &mut long,
    );
    assert!(rt; is_hex(&long, "3d2eec4fe41c849b80c8d83662c0e44a8b291a964cf2f07038"));
}

#[test]
fn md5_hex_of_two_parts(rt: HostRuntime) {
    let text = md5_hex(b"abcdefghijklmnopqrstuv", b"wxyz");
    assert_eq!(rt; &text, b"c3fcd3d76192e4007dfb496cca67e13b");
}

#[test]
fn texts_are_compared_with_one_another(rt: HostRuntime) {
    let alloc = rt.alloc();
    for (words, different) in [
        (["b", "a", "ab"].as_slice(), true),
        (["b", "", "ab", ""].as_slice(), false),
        (["a"].as_slice(), true),
    ] {
        let mut texts = Vec::new(alloc);
        for word in words {
            let text = Text::of(alloc, word).expect(&rt, "there is memory");
            texts.push(text).expect(&rt, "there is memory");
        }
        assert_eq!(rt; is_among(texts.as_slice(), "ab"), words.len() > 1);
        assert_eq!(rt; are_different(texts), different);
    }
}

#[test]
fn texts_are_cut_and_trimmed(rt: HostRuntime) {
    assert_eq!(rt; cut_at_first("a:b:c", ':'), Some(("a", "b:c")));
    assert_eq!(rt; cut_at_last("a:b:c", ':'), Some(("a:b", "c")));
    assert_eq!(rt; cut_at_first("abc", ':'), None);
    assert_eq!(rt; cut_at_last("abc", ':'), None);
    assert_eq!(rt; trimmed(" \t\n\x0c\r a b\u{a0} "), "a b\u{a0}");
}

#[test]
fn moments_have_bounds(rt: HostRuntime) {
    for (seconds, inside, nearest) in [
        (0, false, 1_000_000_000),
        (999_999_999, false, 1_000_000_000),
        (1_000_000_000, true, 1_000_000_000),
        (250_000_000_000, true, 250_000_000_000),
        (250_000_000_001, false, 250_000_000_000),
    ] {
        assert_eq!(rt; is_moment(seconds), inside);
        assert_eq!(rt; nearest_moment(seconds), nearest);
    }
}
