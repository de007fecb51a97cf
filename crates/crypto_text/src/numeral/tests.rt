use super::*;
use std::process::Abort;

fn assert_numerals(rt: &impl Abort, alloc: Global, n: u64, base62: &str, base36: &str) {
    let written = b62_encode(alloc, n).expect(rt, "there is memory");
    assert_eq!(rt; written.as_str(), base62);
    let written = b36_encode(alloc, n).expect(rt, "there is memory");
    assert_eq!(rt; written.as_str(), base36);
    assert_eq!(rt; b62_decode(base62), Some(n), "{base62}");
    assert_eq!(rt; b36_decode(base36), Some(n), "{base36}");
}

#[test]
fn numbers_have_django_s_numerals(rt: HostRuntime) {
    assert_numerals(&rt, rt.alloc(), 0, "0", "0");
    assert_numerals(&rt, rt.alloc(), 61, "z", "1p");
    assert_numerals(&rt, rt.alloc(), 1700000000, "1r31eq", "s44we8");
    assert_numerals(&rt, rt.alloc(), 721692800, "mq9GS", "bxodq8");
    assert_numerals(&rt, rt.alloc(), u64::MAX, "LygHa16AHYF", "3w5e11264sgsf");
}

#[test]
fn other_texts_are_no_numerals(rt: HostRuntime) {
    for text in [
        "",
        "-",
        "+1",
        " 1",
        "1 ",
        "1_0",
        "LygHa16AHYG",
        "zzzzzzzzzzzz",
    ] {
        assert_eq!(rt; b62_decode(text), None, "{text}");
    }
    for text in [
        "",
        "-",
        "Z",
        "3w5e11264sgsg",
        "zzzzzzzzzzzzz",
        "00000000000001",
    ] {
        assert_eq!(rt; b36_decode(text), None, "{text}");
    }
}

#[test]
fn leading_zeros_are_read(rt: HostRuntime) {
    assert_eq!(rt; b62_decode("000000000000000z"), Some(61));
    assert_eq!(rt; b36_decode("000000000001p"), Some(61));
}

#[test]
fn decimal_numbers_are_read(rt: HostRuntime) {
    for (text, n) in [("0", 0), ("7", 7), ("18446744073709551615", u64::MAX)] {
        assert_eq!(rt; decimal_decode(text), Some(n), "{text}");
    }
    for text in ["", "00", "01", "+1", "18446744073709551616", "1a"] {
        assert_eq!(rt; decimal_decode(text), None, "{text}");
        assert_eq!(rt; positive_decode(text), None, "{text}");
    }
    assert_eq!(rt; positive_decode("0"), None);
    assert_eq!(rt; positive_decode("18446744073709551615"), Some(u64::MAX));
}
