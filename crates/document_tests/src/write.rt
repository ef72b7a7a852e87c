//! Words, numbers, letters and events that are written to a text.

use samples::{A, B, Named, alphabet_of};
use std::process::Abort;
use std::test::Fail;
use za_alpha::{Alphabet, OutOfMemory};
use za_ids::EventId;
use za_write::{
    push_entries, push_entry, push_event, push_names, push_number, push_number_if,
    push_number_line, push_pieces, push_word,
};

fn push_words(text: &mut Vec<u8>) -> Result<(), OutOfMemory> {
    push_number_line(text, b"states", 32)?;
    push_word(text, b"left")?;
    push_number(text, 0)?;
    push_number_if(text, false, 7)?;
    push_number_if(text, true, 18446744073709551615)?;
    push_pieces(text, &[b"", b":", b"\n"])
}

#[test]
fn words_and_numbers_of_lines(rt: HostRuntime) -> Result<(), Fail> {
    let mut text = Vec::new(rt.alloc());
    push_words(&mut text)?;
    assert!(rt; text.as_slice() == b"states 32\n left 0 18446744073709551615:\n".as_slice());
    Ok(())
}

/// Two processes, so nine labels a letter: `a` has the numbers 1 to 9, `bc` those from 10 to 18.
static LETTERS: [Named; 2] = [(b"a", &[0]), (b"bc", &[1])];

fn push_events(
    rt: &impl Abort,
    text: &mut Vec<u8>,
    alphabet: &Alphabet,
) -> Result<(), OutOfMemory> {
    assert!(rt; alphabet.letters() == 2 && alphabet.processes() == 2);
    push_names(text, alphabet, &[B, A])?;
    push_event(text, alphabet, B, 8)?;
    push_entry(text, alphabet, EventId(0))?;
    push_entries(text, alphabet, &[EventId(1), EventId(9), EventId(18)])
}

#[test]
fn letters_and_events(rt: HostRuntime) -> Result<(), Fail> {
    let alphabet = alphabet_of(rt.alloc(), 2, &LETTERS)?;
    let mut text = Vec::new(rt.alloc());
    push_events(&rt, &mut text, &alphabet)?;
    assert!(rt; text.as_slice() == b" bc a bc.8 - a.0 a.8 bc.8".as_slice());
    Ok(())
}
