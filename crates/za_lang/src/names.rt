//! The processes line: in version 1 how many processes there are, in version 2 their names.

ghost use Rattle.std.specs.Prelude.{◌≡◌, None, length, nat_lt, MatchResult};
ghost use Rattle.za_lang.specs.Documents.{names_of};
ghost use Rattle.za_lang.specs.Tests.{process_name_fault, processes_line_fault, some_names_fault};
ghost use Rattle.za_lang.specs.Gathering.{IsWrong};

use crate::fault::Refusal;
use crate::limits::WIDE_PROCESSES;
use crate::line_tests::processes_said;
use crate::version::Version;
use crate::words::Words;
use std::alloc::Global;
use za_text::{Kind, Names, is_name};

/// Whether there are more words than so many.
fn are_more(mut words: Words, limit: usize) -> bool
    ensures { result ≡ nat_lt limit (length words.entry) }
{
    for _ in 0..limit {
        if words.next().is_none() {
            return false;
        }
    }
    words.next().is_some()
}

/// What is wrong with the name of one process more.
fn name_fault(names: &Names, word: &[u8]) -> Option<Kind>
    ensures { result ≡ process_name_fault names.now word.now }
{
    if !is_name(word) {
        return Some(Kind::BadName);
    }
    match names.find(word) {
        Some(_process) => Some(Kind::RepeatedProcess),
        None => None,
    }
}

/// The names that the words are.
fn names_given(alloc: Global, mut words: Words) -> Result<Names, Refusal>
    ensures { MatchResult result
        (λ names. (some_names_fault words.entry ≡ None) × (names ≡ words.entry))
        (IsWrong (some_names_fault words.entry)) }
{
    if are_more(words.copy(), WIDE_PROCESSES) {
        return Err(Refusal::Wrong(Kind::WideProcesses));
    }
    let mut names = Names::empty(alloc);
    while let Some(word) = words.next() {
        if let Some(kind) = name_fault(&names, word) {
            return Err(Refusal::Wrong(kind));
        }
        names.add(word)?;
    }
    if names.len() == 0 {
        return Err(Refusal::Wrong(Kind::WordCount));
    }
    Ok(names)
}

/// The names of the processes that a processes line says, by its words after the first.
pub(crate) fn names_said(alloc: Global, version: Version, words: Words) -> Result<Names, Refusal>
    ensures { MatchResult result
        (λ names. (processes_line_fault version words.entry ≡ None) × (names ≡ names_of version words.entry))
        (IsWrong (processes_line_fault version words.entry)) }
{
    match version {
        Version::One => {
            let n = processes_said(words)?;
            Ok(Names::numbers(alloc, n as usize)?)
        }
        Version::Two => names_given(alloc, words),
    }
}
