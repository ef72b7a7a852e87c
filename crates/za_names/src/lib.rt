//! Names, as letters of an alphabet have them. Nothing here takes memory.
#![tactic(auto)]

ghost use Rattle.std.specs.Prelude.{◌≡◌};
ghost use Rattle.std.specs.List.{list_all};
ghost use Rattle.za_names.specs.Names.{begins_with_digit, is_name, is_name_byte};

/// The most bytes of a name.
const MOST_NAME_BYTES: usize = 32;

fn is_name_byte(b: u8) -> bool
    ensures { result ≡ is_name_byte b }
{
    matches!(b, b'A'..=b'Z' | b'a'..=b'z' | b'0'..=b'9' | b'_')
}

fn are_name_bytes(word: &[u8]) -> bool
    ensures { result ≡ list_all is_name_byte word.now }
{
    word.iter().all(|b| is_name_byte(*b))
}

fn begins_with_digit(word: &[u8]) -> bool
    ensures { result ≡ begins_with_digit word.now }
{
    match word {
        [first, ..] => matches!(*first, b'0'..=b'9'),
        [] => false,
    }
}

/// Whether the word is a name: 1 to 32 letters `A` to `Z` or `a` to `z`, digits and underscores, of
/// which the first is no digit.
pub fn is_name(word: &[u8]) -> bool
    ensures { result ≡ is_name word.now }
{
    1 <= word.len()
        && word.len() <= MOST_NAME_BYTES
        && !begins_with_digit(word)
        && are_name_bytes(word)
}
