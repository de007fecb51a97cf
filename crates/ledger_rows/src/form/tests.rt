use super::*;

#[test]
fn forms_are_judged(rt: HostRuntime) {
    for (name, answer) in [
        ("alice", true),
        ("A.b_c@d+e-9", true),
        ("", false),
        ("a b", false),
        ("a\u{e9}", false),
    ] {
        assert!(rt; is_user_name(name) == answer, "{name}");
    }
    for (email, answer) in [("", true), ("alice@example.com", true), ("a b", false)] {
        assert!(rt; is_email(email) == answer, "{email}");
    }
    for (key, answer) in [
        ("s1s1s1s1s1s1s1s1s1s1s1s1s1s1s1s1", true),
        ("s1s1s1s1s1s1s1s1s1s1s1s1s1s1s1s", false),
        ("S1s1s1s1s1s1s1s1s1s1s1s1s1s1s1s1", false),
    ] {
        assert!(rt; is_session_key(key) == answer, "{key}");
    }
    for (word, answer) in [
        ("add_post2", true),
        ("", false),
        ("Add", false),
        ("a.b", false),
    ] {
        assert!(rt; is_permission_word(word) == answer, "{word}");
    }
}
