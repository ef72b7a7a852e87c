//! The lines of a document with an expression, as the reader of version 2 takes them: only the header is
//! another, and an `expr` line stands where a table would.

ghost use Rattle.std.specs.Prelude.{◌≡◌, ◌++◌, ◌∷◌, ℕ, None, List, MatchResult, OnOk, codes, false};
ghost use Rattle.za_text.specs.Lines.{raw};
ghost use Rattle.za_lang.specs.Documents.{Said, words_fault, words_in};
ghost use Rattle.za_lang.specs.Order.{head_of};
ghost use Rattle.za_lang.specs.Gathering.{IsWrong};
ghost use Rattle.za_lang.specs.Reading.{reading_place, IsReading};
ghost use Rattle.za_lang.specs.declared.order.Place.TheVariants.{AtHeader, AtLetters};
ghost use Rattle.za_lang.specs.declared.version.Version.TheVariants.{Two};
ghost use Rattle.za_expr.specs.Documents.{header_fault, tokens_by, version_at, HasFaultAt, HasLineFault};
ghost use Rattle.za_expr.specs.Expressions.{HasExpressionFault};
ghost use Rattle.za_expr.specs.Private.Keeping.{begins_table, is_header_place, more_with, IsWrongBy, KeepsWith};

use crate::expression::start_job;
use std::alloc::Global;
use std::mem;
use za_lang::{Head, Place, Reading, Refusal, Version, Words, head_of, is_comment};
use za_text::{Kind, Line, are_allowed};

/// The version by which lines have comments: they stand after the header.
fn version_at(place: Place) -> Version
    ensures { result ≡ version_at place }
{
    match place {
        Place::AtHeader => Version::One,
        _ => Version::Two,
    }
}

/// The fault of the header, by its first word and the words after it.
fn header_fault(first: &[u8], mut words: Words) -> Option<Kind>
    ensures { result ≡ header_fault (first.now ∷ words.entry) }
{
    let Some(word) = words.next() else {
        return Some(Kind::ExprHeader);
    };
    if words.next().is_some() {
        return Some(Kind::ExprHeader);
    }
    if first == b"zla".as_slice() && word == b"expr".as_slice() {
        None
    } else {
        Some(Kind::ExprHeader)
    }
}

/// Takes the header, by its first word and the words after it.
fn take_header(reading: &mut Reading, first: &[u8], words: Words) -> Result<(), Refusal>
    requires { reading_place reading.old ≡ AtHeader }
    ensures whole { OnOk result (IsReading reading.new) }
    ensures taken { (s : Said) → (tokens : List (List ℕ)) → KeepsWith reading.old s tokens → MatchResult result
        (λ _. (header_fault (first.now ∷ words.entry) ≡ None)
        × KeepsWith reading.new (more_with s (first.now ∷ words.entry))
        (tokens ++ tokens_by (first.now ∷ words.entry)))
        (IsWrong (header_fault (first.now ∷ words.entry))) }
{
    match header_fault(first, words) {
        Some(kind) => Err(Refusal::Wrong(kind)),
        None => {
            *reading = Reading::Processes(Version::Two);
            Ok(())
        }
    }
}

/// Takes an `expr` line after the letters, by its words after the first.
fn take_expression(reading: &mut Reading, alloc: Global, words: Words) -> Result<(), Refusal>
    requires whole { IsReading reading.old }
    requires place { reading_place reading.old ≡ AtLetters }
    ensures whole { OnOk result (IsReading reading.new) }
    ensures taken { (s : Said) → (tokens : List (List ℕ)) → KeepsWith reading.old s tokens → MatchResult result
        (λ _. HasExpressionFault s.letters words.entry None
        × KeepsWith reading.new (more_with s (codes "expr" ∷ words.entry)) (tokens ++ words.entry))
        (IsWrongBy (HasExpressionFault s.letters words.entry)) }
{
    match mem::replace(reading, Reading::Header) {
        Reading::Letters {
            version: Version::Two,
            names,
            letters,
        } => {
            let job = start_job(letters, alloc, names, words)?;
            *reading = Reading::Body {
                place: Place::AtScripts,
                job,
            };
            Ok(())
        }
        _ => Err(Refusal::Wrong(Kind::OutOfOrder)),
    }
}

/// Takes a line as the reader of version 2 does, by its first word and the words after it.
fn take_plainly(
    reading: &mut Reading,
    alloc: Global,
    first: &[u8],
    words: Words,
) -> Result<(), Refusal>
    requires whole { IsReading reading.old }
    requires after { is_header_place (reading_place reading.old) ≡ false }
    requires no_table { begins_table (reading_place reading.old) (head_of first.now) ≡ false }
    ensures whole { OnOk result (IsReading reading.new) }
    ensures taken { (s : Said) → (tokens : List (List ℕ)) → KeepsWith reading.old s tokens → MatchResult result
        (λ _. (words_fault s (first.now ∷ words.entry) ≡ None)
        × KeepsWith reading.new (more_with s (first.now ∷ words.entry))
        (tokens ++ tokens_by (first.now ∷ words.entry)))
        (IsWrong (words_fault s (first.now ∷ words.entry))) }
{
    reading.take_words(alloc, head_of(first), words)
}

/// Takes a line after the letters, by its first word and the words after it.
fn take_after_letters(
    reading: &mut Reading,
    alloc: Global,
    first: &[u8],
    words: Words,
) -> Result<(), Refusal>
    requires whole { IsReading reading.old }
    requires place { reading_place reading.old ≡ AtLetters }
    ensures whole { OnOk result (IsReading reading.new) }
    ensures taken { (s : Said) → (tokens : List (List ℕ)) → KeepsWith reading.old s tokens → MatchResult result
        (λ _. HasFaultAt AtLetters s first.now words.entry None
        × KeepsWith reading.new (more_with s (first.now ∷ words.entry))
        (tokens ++ tokens_by (first.now ∷ words.entry)))
        (IsWrongBy (HasFaultAt AtLetters s first.now words.entry)) }
{
    if first == b"expr".as_slice() {
        return take_expression(reading, alloc, words);
    }
    if head_of(first) == Head::States {
        return Err(Refusal::Wrong(Kind::OutOfOrder));
    }
    take_plainly(reading, alloc, first, words)
}

/// Takes what a line says, by its first word and the words after it.
fn take_words(
    reading: &mut Reading,
    alloc: Global,
    first: &[u8],
    words: Words,
) -> Result<(), Refusal>
    requires { IsReading reading.old }
    ensures whole { OnOk result (IsReading reading.new) }
    ensures taken { (s : Said) → (tokens : List (List ℕ)) → KeepsWith reading.old s tokens → MatchResult result
        (λ _. HasFaultAt s.place s first.now words.entry None
        × KeepsWith reading.new (more_with s (first.now ∷ words.entry))
        (tokens ++ tokens_by (first.now ∷ words.entry)))
        (IsWrongBy (HasFaultAt s.place s first.now words.entry)) }
{
    match reading.place() {
        Place::AtHeader => take_header(reading, first, words),
        Place::AtLetters => take_after_letters(reading, alloc, first, words),
        _ => take_plainly(reading, alloc, first, words),
    }
}

/// Takes what a line says, or tells its first test that fails.
pub(crate) fn take(reading: &mut Reading, alloc: Global, line: &Line) -> Result<(), Refusal>
    requires { IsReading reading.old }
    ensures whole { OnOk result (IsReading reading.new) }
    ensures taken { (s : Said) → (tokens : List (List ℕ)) → KeepsWith reading.old s tokens → MatchResult result
        (λ _. HasLineFault s (raw line.now) None
        × KeepsWith reading.new (more_with s (words_in Two (raw line.now)))
        (tokens ++ tokens_by (words_in Two (raw line.now))))
        (IsWrongBy (HasLineFault s (raw line.now))) }
{
    if !line.whole {
        return Err(Refusal::Wrong(Kind::Cut));
    }
    if !are_allowed(line.text) {
        return Err(Refusal::Wrong(Kind::BadByte));
    }
    let mut words = Words::new(line);
    let Some(first) = words.next() else {
        return Ok(());
    };
    if is_comment(version_at(reading.place()), first) {
        return Ok(());
    }
    take_words(reading, alloc, first, words)
}
