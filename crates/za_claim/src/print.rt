//! The printed form of a claim.

ghost use Rattle.std.specs.Prelude.{◌≡◌, ◌<◌, ◌++◌, IfOk, OnOk, codes, length, map};
ghost use Rattle.za_alpha.specs.Words.{IsWord};
ghost use Rattle.za_text.specs.Printed.{line, text_of};
ghost use Rattle.za_claim.specs.Claims.{event_letters};
ghost use Rattle.za_claim.specs.Printed.{answer_word, claim_line, fire_line, printed_claim};

use crate::claim::Event;
use std::alloc::Global;
use za_alpha::{Alphabet, OutOfMemory};
use za_script::Answer;
use za_write::{push_event, push_pieces};

/// The word of an answer, in ASCII.
pub fn answer_word(answer: Answer) -> &'static [u8]
    ensures { result.now ≡ answer_word answer }
{
    match answer {
        Answer::Accept => b"accept",
        Answer::Reject => b"reject",
        Answer::Stuck => b"stuck",
    }
}

/// The claim line.
fn push_claim_line(text: &mut Vec<u8>, answer: Answer) -> Result<(), OutOfMemory>
    ensures { OnOk result (text.new.items ≡ text.old.items ++ line (claim_line answer)) }
{
    push_pieces(text, &[b"claim ", answer_word(answer), b"\n"])
}

/// A fire line.
fn push_fire_line(text: &mut Vec<u8>, alphabet: &Alphabet, event: Event) -> Result<(), OutOfMemory>
    requires { event.letter.0 < length alphabet.now.letters }
    ensures { OnOk result (text.new.items ≡ text.old.items ++ line (fire_line alphabet.now event)) }
{
    text.extend_from_slice(b"fire")?;
    push_event(text, alphabet, event.letter, event.label)?;
    text.push(b'\n')?;
    Ok(())
}

/// The fire lines of events.
fn push_fire_lines(
    text: &mut Vec<u8>,
    alphabet: &Alphabet,
    events: &[Event],
) -> Result<(), OutOfMemory>
    requires { IsWord (length alphabet.now.letters) (event_letters events.now) }
    ensures { OnOk result (text.new.items ≡ text.old.items ++ text_of (map (fire_line alphabet.now) events.now)) }
{
    for event in events {
        push_fire_line(text, alphabet, *event)?;
    }
    Ok(())
}

/// The printed form of a claim of an answer and of events with letters of the alphabet: the claim line,
/// a fire line for each event in order, and the end line. Want of memory is the one free answer.
pub fn print_claim(
    alloc: Global,
    alphabet: &Alphabet,
    answer: Answer,
    events: &[Event],
) -> Result<Vec<u8>, OutOfMemory>
    requires { IsWord (length alphabet.now.letters) (event_letters events.now) }
    ensures { IfOk result (λ text.
        text.items ≡ printed_claim alphabet.now (record { answer = answer; events = events.now })) }
{
    let mut text = Vec::new(alloc);
    push_claim_line(&mut text, answer)?;
    push_fire_lines(&mut text, alphabet, events)?;
    text.extend_from_slice(b"end\n")?;
    Ok(text)
}
