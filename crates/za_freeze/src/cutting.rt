//! The line of a frozen text that says after how many events it was frozen.

ghost use Rattle.std.specs.Prelude.{◌≡◌, ◌≤◌, IfOk, None, Some, MatchResult};
ghost use Rattle.za_text.specs.Lines.{raw};
ghost use Rattle.za_text.specs.Words.{words_of};
ghost use Rattle.za_freeze.specs.Thawing.{cut_line_fault, cut_words_fault, number_said};

use za_lang::Words;
use za_text::{Kind, Line, are_allowed, number};

/// The number that the words of a cut line say, which is at most `most`.
fn number_said(mut words: Words, most: usize) -> Result<u32, Kind>
    ensures answer { MatchResult result
        (λ k. (cut_words_fault most words.entry ≡ None) × (k ≡ number_said words.entry))
        (λ kind. cut_words_fault most words.entry ≡ Some kind) }
    ensures within { IfOk result (λ k. k ≤ most) }
{
    if words.next().is_none() {
        return Err(Kind::WordCount);
    }
    let Some(word) = words.next() else {
        return Err(Kind::WordCount);
    };
    if words.next().is_some() {
        return Err(Kind::WordCount);
    }
    let Some(cut) = number(word) else {
        return Err(Kind::BadNumber);
    };
    if most < cut as usize {
        return Err(Kind::NoSuchCut);
    }
    Ok(cut)
}

/// The number that a cut line says, which is at most `most`, or the first test of the line that fails.
pub(crate) fn cut_said(line: &Line, most: usize) -> Result<u32, Kind>
    ensures answer { MatchResult result
        (λ k. (cut_line_fault most (raw line.now) ≡ None) × (k ≡ number_said (words_of line.now.text.now)))
        (λ kind. cut_line_fault most (raw line.now) ≡ Some kind) }
    ensures within { IfOk result (λ k. k ≤ most) }
{
    if !line.whole {
        return Err(Kind::Cut);
    }
    if !are_allowed(line.text) {
        return Err(Kind::BadByte);
    }
    number_said(Words::new(line), most)
}
