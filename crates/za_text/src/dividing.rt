ghost use Rattle.std.specs.Prelude.{◌≡◌, ◌+◌, ◌<◌, ◌≤◌, IfSome, length, slice_get, option_map};
ghost use Rattle.za_text.specs.Lines.{lines_of, raw};
ghost use Rattle.za_text.specs.Divided.{begins_with, bytes_of, bytes_of_lines, place_in, lines_before};
ghost use Rattle.za_text.specs.Divided.{lines_through, lines_after};

use crate::line::{Line, Lines};

/// A test of a line of a text.
pub trait LineTest {
    ghost use Rattle.std.specs.Prelude.{◌≡◌, Bool};
    ghost use Rattle.za_text.specs.Lines.{RawLine, raw};

    ghost passing: { Self → RawLine → Bool };

    /// Whether the line passes.
    fn passes(&self, line: &Line) -> bool
        ensures { result ≡ passing self.now (raw line.now) };
}

/// The test whether the first word of a line is this.
#[derive(Clone, Copy, Debug)]
pub struct FirstWord<'a>(pub &'a [u8]);

impl<'a> LineTest for FirstWord<'a> {
    ghost use Rattle.za_text.specs.Divided.{begins_with};

    ghost passing = { λ t l. begins_with t.0.now l };

    fn passes(&self, line: &Line) -> bool {
        match line.words().next() {
            Some(word) => &line.text[word.from..word.to] == self.0,
            None => false,
        }
    }
}

/// A text that is divided at one of its lines: the bytes before this line, the line, the bytes up to
/// its end, and the lines after it.
#[derive(Debug, Drop)]
pub struct Divided<'a> {
    pub before: &'a [u8],
    pub line: Option<Line<'a>>,
    pub through: &'a [u8],
    pub after: Lines<'a>,
}

/// How many bytes a line has, its line feed among them.
fn len_of(line: &Line) -> usize
    ensures { result ≡ length (bytes_of (raw line.now)) }
{
    if line.whole {
        line.text.len() + 1
    } else {
        line.text.len()
    }
}

/// Divides a text of fewer than 4,294,967,295 bytes at its first line that passes the test. Where none
/// does there is no such line, all bytes are before it, and no line is after it.
pub fn divide<'a, T: LineTest>(bytes: &'a [u8], test: &T) -> Divided<'a>
    requires { length bytes.now < 4294967295 }
    ensures before { result.before.now ≡ bytes_of_lines (lines_before (T.passing test.now) (lines_of bytes.now)) }
    ensures line { option_map raw result.line
        ≡ slice_get (lines_of bytes.now) (place_in (T.passing test.now) (lines_of bytes.now)) }
    ensures number { IfSome result.line (λ l. l.number ≡ place_in (T.passing test.now) (lines_of bytes.now) + 1) }
    ensures through { result.through.now
        ≡ bytes_of_lines (lines_through (T.passing test.now) (lines_of bytes.now)) }
    ensures shorter { length result.before.now ≤ length result.through.now }
    ensures within { length result.through.now ≤ length bytes.now }
    ensures after { lines_of result.after.rest ≡ lines_after (T.passing test.now) (lines_of bytes.now) }
    ensures passed { result.after.passed ≡ length (lines_through (T.passing test.now) (lines_of bytes.now)) }
{
    let mut lines = Lines::new(bytes);
    let mut len = 0;
    'lines: while let Some(line) = lines.next() {
        let end = len + len_of(&line);
        if test.passes(&line) {
            return Divided {
                before: &bytes[..len],
                line: Some(line),
                through: &bytes[..end],
                after: lines,
            };
        }
        len = end;
    }
    Divided {
        before: bytes,
        line: None,
        through: bytes,
        after: lines,
    }
}
