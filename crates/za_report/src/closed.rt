//! The texts of languages that are closed, and of those that are not.

ghost use Rattle.std.specs.Prelude.{◌≡◌, ◌++◌, ◌∷◌, IfOk, OnOk, length, map};
ghost use Rattle.za_alpha.specs.Letters.{numbers};
ghost use Rattle.za_alpha.specs.Words.{IsWord};
ghost use Rattle.za_text.specs.Printed.{line};
ghost use Rattle.za_report.specs.Texts.{check_text, names_line, open_text};

use crate::bounds::push_bounds;
use std::alloc::Global;
use za_alpha::{Alphabet, Letter, OutOfMemory, Word};
use za_write::{push_names, push_number_line};

/// The line of a word and the names of letters.
pub(crate) fn push_names_line(
    text: &mut Vec<u8>,
    word: &[u8],
    alphabet: &Alphabet,
    letters: &[Letter],
) -> Result<(), OutOfMemory>
    requires { IsWord (length alphabet.now.letters) (numbers letters.now) }
    ensures { OnOk result (text.new.items ≡ text.old.items
        ++ line (names_line word.now alphabet.now (numbers letters.now))) }
{
    text.extend_from_slice(word)?;
    push_names(text, alphabet, letters)?;
    text.push(b'\n')?;
    Ok(())
}

/// The text of a language that is trace-closed: the number of states of its minimal automaton, and the
/// bounds with so many cache rows. Want of memory is the one free answer.
pub fn check_text(
    alloc: Global,
    alphabet: &Alphabet,
    states: usize,
    cache: u8,
) -> Result<Vec<u8>, OutOfMemory>
    ensures { IfOk result (λ text. text.items ≡ check_text alphabet.now states cache) }
{
    let mut text = Vec::from_slice(alloc, b"closed\n")?;
    push_number_line(&mut text, b"states", states)?;
    push_bounds(&mut text, alphabet, cache)?;
    Ok(text)
}

/// The text of a language that isn't trace-closed, with two words over the alphabet that are
/// equivalent and of which it has one. Want of memory is the one free answer.
pub fn open_text(
    alloc: Global,
    alphabet: &Alphabet,
    left: &Word,
    right: &Word,
) -> Result<Vec<u8>, OutOfMemory>
    requires left { IsWord (length alphabet.now.letters) left.now }
    requires right { IsWord (length alphabet.now.letters) right.now }
    ensures { IfOk result (λ text. text.items ≡ open_text alphabet.now left.now right.now) }
{
    let mut text = Vec::from_slice(alloc, b"not closed\n")?;
    push_names_line(&mut text, b"left", alphabet, left.letters())?;
    push_names_line(&mut text, b"right", alphabet, right.letters())?;
    Ok(text)
}
