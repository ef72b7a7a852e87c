//! The items of a script line: a letter's name, and in version 2 how often the letter stands there.

ghost use Rattle.std.specs.Prelude.{◌≡◌, ◌≤◌, Some, length};
ghost use Rattle.za_lang.specs.Items.{item_of, positive, repeated, star_at};

use crate::version::Version;
use za_text::number;

/// A letter's name, and how often the letter stands there, from 1 on, if that is right.
#[derive(Clone, Copy)]
pub(crate) struct Item<'a> {
    pub(crate) name: &'a [u8],
    pub(crate) count: Option<u32>,
}

/// How many bytes stand before the first `*`.
fn star_at(word: &[u8]) -> usize
    ensures value { result ≡ star_at word.now }
    ensures within { result ≤ length word.now }
{
    for (i, b) in word.iter().enumerate() {
        if *b == b'*' {
            return i;
        }
    }
    word.len()
}

/// A number from 1 on.
fn positive(number: Option<u32>) -> Option<u32>
    ensures { result ≡ positive number }
{
    match number {
        Some(0) => None,
        _ => number,
    }
}

/// The item that a word of version 2 is.
fn repeated(word: &[u8]) -> Item
    ensures name { result.name.now ≡ (repeated word.now).name }
    ensures count { result.count ≡ (repeated word.now).count }
{
    let at = star_at(word);
    if at == word.len() {
        return Item {
            name: word,
            count: Some(1),
        };
    }
    Item {
        name: &word[..at],
        count: positive(number(&word[at + 1..])),
    }
}

/// The item that a word is.
pub(crate) fn item_of(version: Version, word: &[u8]) -> Item
    ensures name { result.name.now ≡ (item_of version word.now).name }
    ensures count { result.count ≡ (item_of version word.now).count }
{
    match version {
        Version::One => Item {
            name: word,
            count: Some(1),
        },
        Version::Two => repeated(word),
    }
}
