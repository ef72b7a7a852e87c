//! Callers of za_text.

ghost use Rattle.std.specs.Prelude.{◌≡◌, ◌<◌, ◌∷◌, [], List, ℕ, None, Some, length, MatchOption};
ghost use Rattle.za_text.specs.Lines.{lines_of};
ghost use Rattle.za_text.specs.Numbers.{numeral_value};
ghost use Rattle.za_text.specs.Words.{words_of};

use za_text::{Line, Lines, number};

/// How many lines a text has, the last one counted even where no line feed ends it.
pub fn line_count(bytes: &[u8]) -> u32
    requires { length bytes.now < 4294967295 }
    ensures { result ≡ length (lines_of bytes.now) }
{
    let mut lines = Lines::new(bytes);
    'lines: while lines.next().is_some() {}
    lines.passed()
}

/// The number that stands alone on a line, and `None` exactly where none does.
pub fn only_number(line: &Line) -> Option<u32>
    ensures { MatchOption result
        ((word : List ℕ) → words_of line.now.text.now ≡ word ∷ [] → numeral_value word ≡ None)
        (λ n. (word : List ℕ) × (words_of line.now.text.now ≡ word ∷ []) × (numeral_value word ≡ Some n)) }
{
    let mut words = line.words();
    let first = words.next()?;
    match words.next() {
        Some(_) => None,
        None => number(&line.text[first.from..first.to]),
    }
}
