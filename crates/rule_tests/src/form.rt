//! Expressions of a language: faults and signs of texts, meanings, and those that are too wide for a table.

use crate::common::{accepts, assert_table, two_letters};
use std::alloc::{AllocError, Global};
use std::process::Abort;
use std::test::Fail;
use za_dfa::Dfa;
use za_expression::Sign;
use za_form::{Form, FormFault, Wide, dfa_of};

/// The fault of the text, if there is one.
fn fault_of(alloc: Global, text: &[u8]) -> Result<Option<FormFault>, Fail> {
    Ok(Form::parse(alloc, &two_letters(alloc)?, text).err())
}

static FAULTS: [(&[u8], Option<FormFault>); 15] = [
    (b"( a | b ) *", None),
    (b"\ta  * *\t", None),
    (b"! ! { a & 1 } & b", None),
    (b"a |", Some(FormFault::NotAForm)),
    (b"", Some(FormFault::NotAForm)),
    (b"( )", Some(FormFault::NotAForm)),
    (b"* a", Some(FormFault::NotAForm)),
    (b"a { b }", Some(FormFault::NotAForm)),
    (b"( a & b )", Some(FormFault::NotAForm)),
    (b"a ! b", Some(FormFault::NotAForm)),
    (b"{ a", Some(FormFault::NotAForm)),
    (b"a b )", Some(FormFault::NotAForm)),
    (b"a | c", Some(FormFault::NoSuchLetter)),
    (b"c |", Some(FormFault::NoSuchLetter)),
    (b"a|b", Some(FormFault::NoSuchLetter)),
];

#[test]
fn texts_have_faults(rt: HostRuntime) -> Result<(), Fail> {
    for (text, fault) in &FAULTS {
        assert_eq!(rt; fault_of(rt.alloc(), text)?, *fault, "{text:?}");
    }
    Ok(())
}

/// The letters `a` and `b` by their numbers.
const A: Sign = Sign::Name(0);

const B: Sign = Sign::Name(1);

static SIGNS: [(&[u8], &[Sign]); 4] = [
    (b"1", &[Sign::Empty]),
    (b"\tb  a *\t* ", &[B, A, Sign::Times, Sign::Times]),
    (
        b"( a | b ) *",
        &[Sign::Open, A, Sign::Bar, B, Sign::Close, Sign::Times],
    ),
    (
        b"! { a & 1 } & b",
        &[
            Sign::Bang,
            Sign::Begin,
            A,
            Sign::Ampersand,
            Sign::Empty,
            Sign::End,
            Sign::Ampersand,
            B,
        ],
    ),
];

/// The expression of the text.
fn form_of(alloc: Global, text: &[u8]) -> Result<Form, Fail> {
    Ok(Form::parse(alloc, &two_letters(alloc)?, text)?)
}

#[test]
fn texts_have_signs(rt: HostRuntime) -> Result<(), Fail> {
    for (text, signs) in &SIGNS {
        let form = form_of(rt.alloc(), text)?;
        assert!(rt; *form.signs() == **signs, "{text:?}");
    }
    Ok(())
}

/// The text, and so many times the other.
fn repeated(alloc: Global, text: &[u8], more: &[u8], times: usize) -> Result<Vec<u8>, AllocError> {
    let mut all = Vec::from_slice(alloc, text)?;
    for _ in 0..times {
        all.extend_from_slice(more)?;
    }
    Ok(all)
}

/// A word that stands so many times, and the fault.
static LONG: [(&[u8], usize, Option<FormFault>); 4] = [
    (b" a", 64, None),
    (b" a", 65, Some(FormFault::Full)),
    (b" c", 64, Some(FormFault::NoSuchLetter)),
    (b" c", 65, Some(FormFault::Full)),
];

#[test]
fn texts_have_at_most_64_words(rt: HostRuntime) -> Result<(), Fail> {
    for (more, times, fault) in &LONG {
        let text = repeated(rt.alloc(), b"", more, *times)?;
        assert_eq!(rt; fault_of(rt.alloc(), &text)?, *fault, "{more:?} {times}");
    }
    Ok(())
}

/// What the text's expression has as a DFA.
fn built(alloc: Global, text: &[u8]) -> Result<Result<Dfa, Wide>, Fail> {
    let alphabet = two_letters(alloc)?;
    let form = Form::parse(alloc, &alphabet, text)?;
    Ok(dfa_of(alloc, alphabet, &form))
}

#[test]
fn all_words_have_three_states(rt: HostRuntime) -> Result<(), Fail> {
    let dfa = built(rt.alloc(), b"( a | b ) *")??;
    assert_eq!(rt; (dfa.start(), dfa.alphabet().letters()), (0, 2));
    let (accepting, targets) = (&[true, true, true], &[1, 2, 1, 2, 1, 2]);
    assert_table(&rt, rt.alloc(), &dfa, accepting, targets)?;
    Ok(())
}

/// How many letters after an `a`, and how many states the table has that knows them.
static WIDE: [(usize, Result<usize, Wide>); 2] = [(5, Ok(65)), (6, Err(Wide::States))];

#[test]
fn wide_expressions_have_no_table(rt: HostRuntime) -> Result<(), Fail> {
    for (times, states) in &WIDE {
        let text = repeated(rt.alloc(), b"( a | b ) * a", b" ( a | b )", *times)?;
        let seen = built(rt.alloc(), &text)?.map(|dfa| dfa.states());
        assert_eq!(rt; seen, *states, "{times}");
    }
    Ok(())
}

/// Expressions, words, and whether they mean them.
static MEANINGS: [(&[u8], &[u8], bool); 13] = [
    (b"a | b a", &[0], true),
    (b"a | b a", &[1, 0], true),
    (b"a | b a", &[0, 0], false),
    (b"a *", &[], true),
    (b"a b *", &[0, 1, 1], true),
    (b"a b *", &[0, 1, 0, 1], false),
    (b"1", &[], true),
    (b"! 1", &[1], true),
    (b"! 1", &[], false),
    (b"a * & ! a a", &[0, 0], false),
    (b"a * & ! a a", &[0], true),
    (b"a * & ! a a", &[1], false),
    (b"! { a & b }", &[0], true),
];

fn means(rt: &impl Abort, alloc: Global, text: &[u8], letters: &[u8]) -> Result<bool, Fail> {
    let dfa = built(alloc, text)??;
    accepts(rt, alloc, &dfa, letters)
}

#[test]
fn expressions_have_meanings(rt: HostRuntime) -> Result<(), Fail> {
    for (text, letters, accepted) in &MEANINGS {
        let seen = means(&rt, rt.alloc(), text, letters)?;
        assert_eq!(rt; seen, *accepted, "{text:?} {letters:?}");
    }
    Ok(())
}
