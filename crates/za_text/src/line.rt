ghost use Rattle.std.specs.Prelude.{◌≡◌, ◌+◌, ◌<◌, ◌≤◌, ◌==◌, [], ◌∷◌, not, length, MatchOption};
ghost use Rattle.std.specs.List.{prefix_len, list_all};
ghost use Rattle.za_text.specs.Lines.{lines_of, raw, is_allowed, IsLastLine, IsNextLine};
ghost use Rattle.za_text.specs.Words.{LeftWords};

use crate::word::WordsOf;
use memchr::memchr;
use std::marker::Model;

/// A line of a text: its number from 1 on, its bytes without the line feed, and whether a line feed
/// ends it. Only the last line of a text can lack one.
#[derive(Clone, Copy, Debug)]
pub struct Line<'a> {
    pub number: u32,
    pub text: &'a [u8],
    pub whole: bool,
}

/// The lines of a text that are left. Contracts see the bytes that are left and how many lines have
/// come.
#[derive(Debug, Drop)]
pub struct Lines<'a> {
    rest: &'a [u8],
    passed: u32,
}

impl<'a> Model for Lines<'a> {
    ghost use Rattle.za_text.specs.Lines.{LeftLines, left_lines, IsLeft};

    ghost Value = { LeftLines };

    ghost view = { left_lines };

    ghost invariant = { IsLeft };
}

/// How many bytes stand before the first line feed, or at all where there is none.
fn line_len(bytes: &[u8]) -> usize
    ensures value { result ≡ prefix_len (λ b. not (b == 10)) bytes.now }
    ensures within { result ≤ length bytes.now }
{
    match memchr(b'\n', bytes) {
        Some(at) => at,
        None => bytes.len(),
    }
}

impl<'a> Lines<'a> {
    /// All lines of a text of fewer than 4,294,967,295 bytes. It is cut at each line feed; bytes after
    /// the last one are a last line that isn't whole.
    pub fn new(bytes: &'a [u8]) -> Lines<'a>
        requires { length bytes.now < 4294967295 }
        ensures rest { result.rest ≡ bytes.now }
        ensures passed { result.passed ≡ 0 }
    {
        Lines {
            rest: bytes,
            passed: 0,
        }
    }

    /// How many lines have come.
    pub fn passed(&self) -> u32
        ensures value { result ≡ self.now.passed }
        ensures few { result < 4294967295 }
    {
        let _rest = self.rest;
        self.passed
    }

    /// The next line, and `None` exactly where no line is left; then nothing changes.
    pub fn next(&mut self) -> Option<Line<'a>>
        ensures { MatchOption result (IsLastLine self.old self.new) (IsNextLine self.old self.new) }
    {
        if self.rest.is_empty() {
            return None;
        }
        let len = line_len(self.rest);
        self.passed += 1;
        if len < self.rest.len() {
            let text = &self.rest[..len];
            self.rest = &self.rest[len + 1..];
            return Some(Line {
                number: self.passed,
                text,
                whole: true,
            });
        }
        let text = self.rest;
        self.rest = &[];
        Some(Line {
            number: self.passed,
            text,
            whole: false,
        })
    }
}

impl<'a> Line<'a> {
    /// The words of the line, in order.
    pub fn words(&self) -> WordsOf<'a>
        ensures text { result.text ≡ self.now.text.now }
        ensures at { result.at ≡ 0 }
        ensures line { result.line ≡ self.now.number }
    {
        WordsOf::new(self.number, self.text)
    }
}

fn is_allowed(b: u8) -> bool
    ensures { result ≡ is_allowed b }
{
    matches!(b, b'\t' | b' '..=b'~')
}

/// Whether a line may hold each of the bytes: they are tab and 32 to 126.
pub fn are_allowed(bytes: &[u8]) -> bool
    ensures { result ≡ list_all is_allowed bytes.now }
{
    // No early end, so that many bytes are tested at once.
    let mut all = true;
    for b in bytes {
        all = all & is_allowed(*b);
    }
    all
}
