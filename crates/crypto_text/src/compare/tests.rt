use super::*;

#[test]
fn only_equal_bytes_are_the_same(rt: HostRuntime) {
    for (a, b, equal) in [
        (b"".as_slice(), b"".as_slice(), true),
        (b"secret".as_slice(), b"secret".as_slice(), true),
        (b"secret".as_slice(), b"secreT".as_slice(), false),
        (b"secret".as_slice(), b"Secret".as_slice(), false),
        (b"secret".as_slice(), b"secre".as_slice(), false),
        (b"secre".as_slice(), b"secret".as_slice(), false),
    ] {
        assert_eq!(rt; same(a, b), equal);
    }
}
