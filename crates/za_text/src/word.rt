ghost use Rattle.std.specs.Prelude.{◌≡◌, ◌+◌, ◌<◌, ◌≤◌, [], ◌∷◌, not, length, drop, take, MatchOption};
ghost use Rattle.std.specs.List.{prefix_len};
ghost use Rattle.za_text.specs.Words.{is_gap, words_of, left_in, IsLastWord, IsNextWord};

use std::marker::Model;

/// A word of the line with this number: its bytes are those of the line's text from `from` up to but
/// not including `to`.
#[derive(Clone, Copy, Debug, PartialEq, Eq)]
pub struct Token {
    pub line: u32,
    pub from: usize,
    pub to: usize,
}

/// The words of a line that are left: its longest runs of bytes other than space and tab, in order.
/// Contracts see the line and up to where its words have come.
#[derive(Debug, Drop)]
pub struct WordsOf<'a> {
    line: u32,
    text: &'a [u8],
    at: usize,
}

impl<'a> Model for WordsOf<'a> {
    ghost use Rattle.za_text.specs.Words.{LeftWords, left_words, IsWithin};

    ghost Value = { LeftWords };

    ghost view = { left_words };

    ghost invariant = { IsWithin };
}

fn is_gap(b: u8) -> bool
    ensures { result ≡ is_gap b }
{
    matches!(b, b' ' | b'\t')
}

/// How many gap bytes stand at the front.
fn gap_len(bytes: &[u8]) -> usize
    ensures value { result ≡ prefix_len is_gap bytes.now }
    ensures within { result ≤ length bytes.now }
{
    for (i, b) in bytes.iter().enumerate() {
        if !is_gap(*b) {
            return i;
        }
    }
    bytes.len()
}

/// How many bytes of a word stand at the front.
fn word_len(bytes: &[u8]) -> usize
    ensures value { result ≡ prefix_len (λ b. not (is_gap b)) bytes.now }
    ensures within { result ≤ length bytes.now }
{
    for (i, b) in bytes.iter().enumerate() {
        // One comparison passes most bytes of a word.
        if *b <= b' ' && is_gap(*b) {
            return i;
        }
    }
    bytes.len()
}

impl<'a> WordsOf<'a> {
    pub(crate) fn new(line: u32, text: &'a [u8]) -> WordsOf<'a>
        ensures text { result.text ≡ text.now }
        ensures at { result.at ≡ 0 }
        ensures line { result.line ≡ line }
    {
        WordsOf { line, text, at: 0 }
    }

    /// The same words once more, from where these have come to.
    pub fn copy(&self) -> WordsOf<'a>
        ensures { result ≡ self.now }
    {
        WordsOf {
            line: self.line,
            text: self.text,
            at: self.at,
        }
    }

    /// The text from where the words have come to: its words are those that are left.
    pub fn rest(&self) -> &'a [u8]
        ensures { words_of result.now ≡ left_in self.now }
    {
        &self.text[self.at..]
    }

    /// The next word, and `None` exactly where no word is left; then nothing changes.
    pub fn next(&mut self) -> Option<Token>
        ensures { MatchOption result (IsLastWord self.old self.new) (IsNextWord self.old self.new) }
    {
        let from = self.at + gap_len(&self.text[self.at..]);
        let len = word_len(&self.text[from..]);
        if len == 0 {
            return None;
        }
        self.at = from + len;
        Some(Token {
            line: self.line,
            from,
            to: self.at,
        })
    }
}
