//! Which words are names.

use za_names::is_name;

static NAMES: [(&[u8], bool); 9] = [
    (b"a", true),
    (b"Zz_09", true),
    (b"_", true),
    (b"a2345678901234567890123456789012", true),
    (b"a23456789012345678901234567890123", false),
    (b"", false),
    (b"1a", false),
    (b"a.0", false),
    (b"a-b", false),
];

#[test]
fn names_begin_with_a_letter_or_an_underscore(rt: HostRuntime) {
    for (word, named) in &NAMES {
        assert_eq!(rt; is_name(word), *named, "{word:?}");
    }
}
