//! The signs of a text.

ghost use Rattle.std.specs.Prelude.{◌≡◌, ◌<◌, ◌≤◌, IfOk, MatchOption, nat_lt, true, length};
ghost use Rattle.std.specs.List.{list_any};
ghost use Rattle.za_text.specs.Words.{words_of};
ghost use Rattle.za_expression.specs.Limits.{most_signs};
ghost use Rattle.za_form.specs.Expressions.{symbol_of, sign_of, is_unknown, AreSigns};

use std::alloc::Global;
use za_alpha::{Alphabet, OutOfMemory};
use za_expression::Sign;
use za_text::{Line, WordsOf};

/// The most signs of an expression.
const MOST_SIGNS: usize = 64;

/// The tokens of the text, as those of a line.
fn tokens_of(text: &[u8]) -> WordsOf<'_>
    ensures text { result.text ≡ text.now }
    ensures at { result.at ≡ 0 }
{
    let line = Line {
        number: 1,
        text,
        whole: true,
    };
    line.words()
}

/// Whether the text has more tokens than an expression has signs.
pub(crate) fn is_full(text: &[u8]) -> bool
    ensures { result ≡ nat_lt most_signs (length (words_of text.now)) }
{
    let mut tokens = tokens_of(text);
    for _ in 0..MOST_SIGNS {
        if tokens.next().is_none() {
            return false;
        }
    }
    tokens.next().is_some()
}

/// The symbol that the token is.
fn symbol_of(token: &[u8]) -> Option<Sign>
    ensures { result ≡ symbol_of token.now }
{
    if token == b"1".as_slice() {
        Some(Sign::Empty)
    } else if token == b"(".as_slice() {
        Some(Sign::Open)
    } else if token == b")".as_slice() {
        Some(Sign::Close)
    } else if token == b"{".as_slice() {
        Some(Sign::Begin)
    } else if token == b"}".as_slice() {
        Some(Sign::End)
    } else if token == b"|".as_slice() {
        Some(Sign::Bar)
    } else if token == b"*".as_slice() {
        Some(Sign::Times)
    } else if token == b"&".as_slice() {
        Some(Sign::Ampersand)
    } else if token == b"!".as_slice() {
        Some(Sign::Bang)
    } else {
        None
    }
}

/// The sign that the token is: a symbol, or a letter's name.
fn sign_of(alphabet: &Alphabet, token: &[u8]) -> Option<Sign>
    ensures { result ≡ sign_of alphabet.now.letters token.now }
{
    match symbol_of(token) {
        Some(sign) => Some(sign),
        None => match alphabet.find(token) {
            Some(a) => Some(Sign::Name(a.0)),
            None => None,
        },
    }
}

/// The signs that the text's tokens are, and `None` exactly where a token is no sign.
pub(crate) fn signs_of(
    alloc: Global,
    alphabet: &Alphabet,
    text: &[u8],
) -> Result<Option<Vec<Sign>>, OutOfMemory>
    ensures { IfOk result (λ found. MatchOption found
        (list_any (is_unknown alphabet.now.letters) (words_of text.now) ≡ true)
        (λ signs. AreSigns alphabet.now.letters (words_of text.now) signs.items)) }
{
    let mut signs = Vec::new(alloc);
    let mut tokens = tokens_of(text);
    while let Some(token) = tokens.next() {
        match sign_of(alphabet, &text[token.from..token.to]) {
            Some(sign) => signs.push(sign)?,
            None => return Ok(None),
        }
    }
    Ok(Some(signs))
}
