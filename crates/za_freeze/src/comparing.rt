//! The first line at which two texts differ.

ghost use Rattle.std.specs.Prelude.{◌≡◌, ◌+◌, ◌<◌, length, option_map};
ghost use Rattle.za_text.specs.Lines.{lines_of};
ghost use Rattle.za_freeze.specs.Thawing.{first_other};

/// The number of the first line at which a text of fewer than 4,294,967,295 bytes differs from another,
/// and `None` exactly where they are the same. A line that only one of them has differs.
pub(crate) fn first_other(text: &[u8], other: &[u8]) -> Option<u32>
    requires { length text.now < 4294967295 }
    ensures { result ≡ option_map (λ n. n + 1) (first_other (lines_of text.now) (lines_of other.now)) }
{
    let mut line = 1;
    for i in 0..text.len() {
        if other.len() <= i || text[i] != other[i] {
            return Some(line);
        }
        if text[i] == b'\n' {
            line += 1;
        }
    }
    if text.len() < other.len() {
        Some(line)
    } else {
        None
    }
}
