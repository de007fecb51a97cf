use super::*;

#[test]
fn words_pick_letters(rt: HostRuntime) {
    let alloc = rt.alloc();
    let words = [0, 2147483648, 4294967295];
    for (alphabet, expected) in [(Alphabet::Session36, "as9"), (Alphabet::Letters62, "aF9")] {
        let text = text_of(alloc, &words, alphabet).expect(&rt, "there is memory");
        assert_eq!(rt; text.as_str(), expected);
    }
    assert_eq!(rt; pick(4294967295, 1), 0);
    assert_eq!(rt; pick(4294967295, 4294967295), 4294967294);
}
