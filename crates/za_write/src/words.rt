//! Words, numbers and names of letters.

ghost use Rattle.std.specs.Prelude.{◌≡◌, ◌++◌, ◌∷◌, [], OnOk, OnErr, length, map, decimal, if◌then◌else◌};
ghost use Rattle.za_alpha.specs.Words.{IsWord};
ghost use Rattle.za_alpha.specs.Letters.{numbers};
ghost use Rattle.za_alpha.specs.Alphabet.{name_at};
ghost use Rattle.za_text.specs.Printed.{spaced, line, number_line};

use crate::pieces::push_pieces;
use itoa::Buffer;
use za_alpha::{Alphabet, Letter, OutOfMemory};

/// A word after a space.
pub fn push_word(text: &mut Vec<u8>, word: &[u8]) -> Result<(), OutOfMemory>
    ensures ok { OnOk result (text.new.items ≡ text.old.items ++ spaced (word.now ∷ [])) }
    ensures err { OnErr result (text.new.items ≡ text.old.items) }
{
    push_pieces(text, &[b" ", word])
}

/// A number after a space.
pub fn push_number(text: &mut Vec<u8>, n: usize) -> Result<(), OutOfMemory>
    ensures ok { OnOk result (text.new.items ≡ text.old.items ++ spaced (decimal n ∷ [])) }
    ensures err { OnErr result (text.new.items ≡ text.old.items) }
{
    let mut buffer = Buffer::new();
    push_word(text, buffer.format(n).as_bytes())
}

/// A number after a space, if it is wanted.
pub fn push_number_if(text: &mut Vec<u8>, is_wanted: bool, n: usize) -> Result<(), OutOfMemory>
    ensures ok { OnOk result (text.new.items
        ≡ text.old.items ++ (if is_wanted then spaced (decimal n ∷ []) else [])) }
    ensures err { OnErr result (text.new.items ≡ text.old.items) }
{
    if is_wanted {
        push_number(text, n)
    } else {
        Ok(())
    }
}

/// The names of letters, each after a space.
pub fn push_names(
    text: &mut Vec<u8>,
    alphabet: &Alphabet,
    letters: &[Letter],
) -> Result<(), OutOfMemory>
    requires { IsWord (length alphabet.now.letters) (numbers letters.now) }
    ensures ok { OnOk result (text.new.items
        ≡ text.old.items ++ spaced (map (name_at alphabet.now.letters) (numbers letters.now))) }
    ensures err { OnErr result (text.new.items ≡ text.old.items) }
{
    let len = text.len();
    for a in letters {
        if push_word(text, alphabet.name(*a)).is_err() {
            text.truncate(len);
            return Err(OutOfMemory);
        }
    }
    Ok(())
}

/// A line of a word and a number.
pub fn push_number_line(text: &mut Vec<u8>, word: &[u8], n: usize) -> Result<(), OutOfMemory>
    ensures ok { OnOk result (text.new.items ≡ text.old.items ++ line (number_line word.now n)) }
    ensures err { OnErr result (text.new.items ≡ text.old.items) }
{
    let mut buffer = Buffer::new();
    push_pieces(text, &[word, b" ", buffer.format(n).as_bytes(), b"\n"])
}
