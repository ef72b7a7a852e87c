//! The items of a script line: letters, or runs of one letter.

ghost use Rattle.std.specs.Prelude.{◌≡◌, ◌<◌, ◌≤◌, ◌++◌, ◌∷◌, [], OnOk, length, map, decimal, if◌then◌else◌, ◌==◌};
ghost use Rattle.za_alpha.specs.Words.{IsWord};
ghost use Rattle.za_alpha.specs.Letters.{numbers};
ghost use Rattle.za_text.specs.Printed.{spaced};
ghost use Rattle.za_print.specs.Printed.{item_word};
ghost use Rattle.za_print.specs.Private.Items.{front_run, item_len, runs_by};

use itoa::Buffer;
use za_alpha::{Alphabet, Letter, OutOfMemory};
use za_write::push_word;

/// A letter's name after a space, and how often the letter stands there, where that is more than once.
fn push_item(text: &mut Vec<u8>, name: &[u8], count: usize) -> Result<(), OutOfMemory>
    ensures { OnOk result (text.new.items
        ≡ text.old.items ++ spaced ((if count == 1 then name.now else name.now ++ 42 ∷ decimal count) ∷ [])) }
{
    push_word(text, name)?;
    if count == 1 {
        return Ok(());
    }
    let mut buffer = Buffer::new();
    text.push(b'*')?;
    text.extend_from_slice(buffer.format(count).as_bytes())?;
    Ok(())
}

/// How many letters at the front are the first one.
fn run_len(letters: &[Letter]) -> usize
    requires { 0 < length letters.now }
    ensures value { result ≡ front_run (numbers letters.now) }
    ensures within { result ≤ length letters.now }
{
    let first = letters[0].0;
    for (i, a) in letters.iter().enumerate() {
        if a.0 != first {
            return i;
        }
    }
    letters.len()
}

/// How many letters the first item has.
fn item_len(repeats: bool, letters: &[Letter]) -> usize
    requires { 0 < length letters.now }
    ensures value { result ≡ item_len repeats (numbers letters.now) }
    ensures within { result ≤ length letters.now }
{
    if repeats { run_len(letters) } else { 1 }
}

/// The items of a script, each after a space: its maximal runs of one letter, or its letters.
pub(crate) fn push_items(
    text: &mut Vec<u8>,
    alphabet: &Alphabet,
    repeats: bool,
    letters: &[Letter],
) -> Result<(), OutOfMemory>
    requires { IsWord (length alphabet.now.letters) (numbers letters.now) }
    ensures { OnOk result (text.new.items
        ≡ text.old.items ++ spaced (map (item_word alphabet.now.letters) (runs_by repeats (numbers letters.now)))) }
{
    let mut rest = letters;
    while !rest.is_empty() {
        let count = item_len(repeats, rest);
        push_item(text, alphabet.name(rest[0]), count)?;
        rest = &rest[count..];
    }
    Ok(())
}
