//! Texts that are divided at a line.

use za_text::{FirstWord, divide};

const MOST_BYTES: usize = 4294967294;

/// How many bytes stand before the line at which a text is divided, its number, how many bytes stand up to its
/// end, and the number of the first line after it.
type Parts = (usize, Option<u32>, usize, Option<u32>);

/// The parts of a text that is divided at its first line that begins with `cut`.
fn cut_at(text: &[u8]) -> Option<Parts> {
    if MOST_BYTES < text.len() {
        return None;
    }
    let mut divided = divide(text, &FirstWord(b"cut"));
    let number = match divided.line {
        Some(line) => Some(line.number),
        None => None,
    };
    let next = match divided.after.next() {
        Some(line) => Some(line.number),
        None => None,
    };
    Some((divided.before.len(), number, divided.through.len(), next))
}

static TEXTS: [(&[u8], Parts); 5] = [
    (b"", (0, None, 0, None)),
    (b"a\nb cut\ncuts\n", (13, None, 13, None)),
    (b"a\n\t cut 2\ncut\nb\n", (2, Some(2), 10, Some(3))),
    (b"a\ncut", (2, Some(2), 5, None)),
    (b"cut\nb", (0, Some(1), 4, Some(2))),
];

#[test]
fn texts_are_divided_at_a_line(rt: HostRuntime) {
    for (text, parts) in &TEXTS {
        assert_eq!(rt; cut_at(text), Some(*parts), "{text:?}");
    }
}
