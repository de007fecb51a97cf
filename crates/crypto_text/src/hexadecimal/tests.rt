use super::*;

#[test]
fn digests_are_written_in_lower_case(rt: HostRuntime) {
    let text = hex_of(b"abcdefghijklmnopqrstuvwxyz012345");
    assert_eq!(rt;
        text.as_slice(),
        b"6162636465666768696a6b6c6d6e6f707172737475767778797a303132333435".as_slice()
    );
}
