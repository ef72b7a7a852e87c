//! The own tests of the lines of a claim, each by the words after the line's first.

ghost use Rattle.std.specs.Prelude.{◌≡◌, ◌<◌, ◌≤◌, ◌^◌, ◌∷◌, [], length, None, Some, IfOk, MatchResult};
ghost use Rattle.za_claim.specs.Grammar.{answer_fault, claim_line_fault, event_fault, event_of, events_said};
ghost use Rattle.za_claim.specs.Grammar.{fire_line_fault, first_answer, label_fault, label_in, letter_in};
ghost use Rattle.za_claim.specs.Grammar.{named_answer, point_in};
ghost use Rattle.za_claim.specs.Claims.{HasLabel};
ghost use Rattle.za_claim.specs.Limits.{most_events};
ghost use Rattle.za_text.specs.Numbers.{numeral_value};
ghost use Rattle.za_claim.specs.declared.order.Head.{Head};

use crate::claim::{Event, MOST_EVENTS};
use za_alpha::Alphabet;
use za_lang::Words;
use za_script::Answer;
use za_text::{Kind, number};

/// The answer that a word names.
fn named_answer(word: &[u8]) -> Option<Answer>
    ensures { result ≡ named_answer word.now }
{
    if word == b"accept".as_slice() {
        Some(Answer::Accept)
    } else if word == b"reject".as_slice() {
        Some(Answer::Reject)
    } else if word == b"stuck".as_slice() {
        Some(Answer::Stuck)
    } else {
        None
    }
}

/// The answer that a claim line says, by its words after the first.
pub(crate) fn answer_said(mut words: Words) -> Result<Answer, Kind>
    ensures { MatchResult result
        (λ answer. (claim_line_fault words.entry ≡ None) × (first_answer words.entry ≡ Some answer))
        (λ kind. claim_line_fault words.entry ≡ Some kind) }
{
    let Some(word) = words.next() else {
        return Err(Kind::WordCount);
    };
    if words.next().is_some() {
        return Err(Kind::WordCount);
    }
    match named_answer(word) {
        Some(answer) => Ok(answer),
        None => Err(Kind::NoSuchAnswer),
    }
}

/// Where the first point of a word stands, and its length where there is none.
fn point_in(word: &[u8]) -> usize
    ensures value { result ≡ point_in word.now }
    ensures within { result ≤ length word.now }
{
    for (i, b) in word.iter().enumerate() {
        if *b == b'.' {
            return i;
        }
    }
    word.len()
}

/// The most that a label of the alphabet is.
fn most_label(alphabet: &Alphabet) -> usize
    ensures value { result ≡ alphabet.now.processes ^ 3 }
    ensures small { result ≤ 1000 }
{
    let n = alphabet.processes();
    n * n * n
}

/// The label that a word says.
fn label_said(alphabet: &Alphabet, word: &[u8]) -> Result<u16, Kind>
    ensures { MatchResult result
        (λ k. (label_fault alphabet.now.processes (numeral_value word.now) ≡ None)
        × (numeral_value word.now ≡ Some k) × (k ≤ alphabet.now.processes ^ 3))
        (λ kind. label_fault alphabet.now.processes (numeral_value word.now) ≡ Some kind) }
{
    match number(word) {
        None => Err(Kind::BadNumber),
        Some(label) => {
            if label as usize <= most_label(alphabet) {
                Ok(label as u16)
            } else {
                Err(Kind::NoSuchLabel)
            }
        }
    }
}

/// The event that a word says: a letter's name, a point and a label.
#[tactic(auto, using(za_lang::proofs::Places::place_within))]
fn named_event(alphabet: &Alphabet, word: &[u8]) -> Result<Event, Kind>
    ensures told { MatchResult result
        (λ e. (event_fault alphabet.now word.now ≡ None)
        × (event_of (letter_in alphabet.now word.now) (label_in word.now) ≡ e ∷ []))
        (λ kind. event_fault alphabet.now word.now ≡ Some kind) }
    ensures letter { IfOk result (λ e. e.letter.0 < length alphabet.now.letters) }
    ensures label { IfOk result (HasLabel alphabet.now) }
{
    let at = point_in(word);
    if at == word.len() {
        return Err(Kind::BadEvent);
    }
    let Some(letter) = alphabet.find(&word[..at]) else {
        return Err(Kind::NoSuchLetter);
    };
    let label = label_said(alphabet, &word[at + 1..])?;
    Ok(Event { letter, label })
}

/// The event that a fire line says after `read` others, by its words after the first.
pub(crate) fn event_said(alphabet: &Alphabet, read: usize, mut words: Words) -> Result<Event, Kind>
    ensures told { MatchResult result
        (λ e. (fire_line_fault alphabet.now read words.entry ≡ None)
        × (events_said alphabet.now Head.Fire words.entry ≡ e ∷ []) × (read < most_events))
        (λ kind. fire_line_fault alphabet.now read words.entry ≡ Some kind) }
    ensures letter { IfOk result (λ e. e.letter.0 < length alphabet.now.letters) }
    ensures label { IfOk result (HasLabel alphabet.now) }
{
    let Some(word) = words.next() else {
        return Err(Kind::WordCount);
    };
    if words.next().is_some() {
        return Err(Kind::WordCount);
    }
    if read >= MOST_EVENTS {
        return Err(Kind::ClaimFull);
    }
    named_event(alphabet, word)
}
