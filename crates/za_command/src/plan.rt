//! What the command words ask for.

ghost use Rattle.std.specs.Prelude.{◌≡◌, MatchResult, Some, None, map, not, string_bytes};
ghost use Rattle.std.specs.List.{list_any};
ghost use Rattle.za_command.specs.Private.Command.{plan_of_texts, texts_of};
ghost use Rattle.za_command.specs.Plans.{cache_of, is_foreign, is_neither, plan_of, plan_of_pair, plan_of_word};
ghost use Rattle.za_command.specs.Plans.{plan_with, plan_with_number, spelling};

use crate::command::{Found, found_in};
use clap::error::ErrorKind;
use std::alloc::Global;
use za_text::number;

/// The most rows of the cache of transitions.
pub const MOST_CACHE_ROWS: u32 = 64;

/// What command words ask for. `cache` is a number of cache rows, 0 to 64.
#[derive(Clone, Copy, Debug, PartialEq, Eq)]
pub enum Plan {
    Solo { cache: u8 },
    Run { cache: u8 },
    Check { cache: u8 },
    Locals { cache: u8 },
    Journal { cache: u8 },
    Audit,
    Build,
    News,
    Thaw,
    Gen { number: u32 },
    Freeze { cut: u32 },
}

/// Why there is no plan: the command words are in no form, or for want of memory.
#[derive(Clone, Copy, Debug, PartialEq, Eq)]
pub enum WordsFault {
    Usage,
    OutOfMemory,
}

/// Whether the command word spells the cache option.
fn spells_cache(word: &[u8]) -> bool
    ensures { result ≡ not (is_neither (spelling word.now)) }
{
    match word.strip_prefix(b"--cache") {
        None => false,
        Some([]) => true,
        Some([b, ..]) => *b == b'=',
    }
}

/// Whether the command word begins with a hyphen, and doesn't spell the cache option.
fn is_foreign(word: &[u8]) -> bool
    ensures { result ≡ is_foreign word.now }
{
    match word {
        [] => false,
        [b, ..] => *b == b'-' && !spells_cache(word),
    }
}

/// Whether a command word is foreign.
fn has_foreign(words: &[String]) -> bool
    ensures { result ≡ list_any (λ word. is_foreign (string_bytes word)) words.now }
{
    words.iter().any(|word| is_foreign(word.as_bytes()))
}

/// A number of cache rows.
fn cache_of(word: &str) -> Option<u8>
    ensures { result ≡ cache_of word.now }
{
    match number(word.as_bytes()) {
        Some(rows) if rows <= MOST_CACHE_ROWS => Some(rows as u8),
        _ => None,
    }
}

/// The command that takes the cache option, with so many rows.
fn plan_with(name: &str, rows: u8) -> Option<Plan>
    ensures { result ≡ plan_with name.now rows }
{
    match name {
        "solo" => Some(Plan::Solo { cache: rows }),
        "run" => Some(Plan::Run { cache: rows }),
        "check" => Some(Plan::Check { cache: rows }),
        "locals" => Some(Plan::Locals { cache: rows }),
        "journal" => Some(Plan::Journal { cache: rows }),
        _ => None,
    }
}

/// What one command word without the option asks for.
fn plan_of_word(name: &str) -> Option<Plan>
    ensures { result ≡ plan_of_word name.now }
{
    match name {
        "audit" => Some(Plan::Audit),
        "build" => Some(Plan::Build),
        "news" => Some(Plan::News),
        "thaw" => Some(Plan::Thaw),
        _ => plan_with(name, 0),
    }
}

/// What a command asks for that takes this number.
fn plan_with_number(name: &str, n: u32) -> Option<Plan>
    ensures { result ≡ plan_with_number name.now n }
{
    match name {
        "gen" => Some(Plan::Gen { number: n }),
        "freeze" => Some(Plan::Freeze { cut: n }),
        _ => None,
    }
}

/// What two command words ask for: a command and a number.
fn plan_of_pair(name: &str, word: &str) -> Option<Plan>
    ensures { result ≡ plan_of_pair name.now word.now }
{
    plan_with_number(name, number(word.as_bytes())?)
}

/// What is asked for by what clap found.
fn plan_of_found(found: Found) -> Option<Plan>
    ensures { result ≡ plan_of_texts (texts_of found.entry) }
{
    match (found.command, found.number, found.cache) {
        (Some(name), None, None) => plan_of_word(name),
        (Some(name), None, Some(value)) => plan_with(name, cache_of(value)?),
        (Some(name), Some(word), None) => plan_of_pair(name, word),
        _ => None,
    }
}

/// What the command words ask for, those after the program's name.
///
/// The cache option is the word `--cache` and the word after it, or one word `--cache=C`. It stands at
/// most once, at any place. Without it there is one word, `solo`, `run`, `check`, `locals`, `journal`,
/// `audit`, `build`, `news` or `thaw`, or there are two words, `gen` and `N` or `freeze` and `K`. The
/// option goes with `solo`, `run`, `check`, `locals` and `journal` alone; without it there are no cache
/// rows. `C` is a decimal number from 0 to 64 and `N` and `K` are ones from 0 to 4294967295, all without
/// sign and without a leading zero, but for `0` itself. Any other word that begins with `-` is in no form.
///
/// `Usage` comes exactly where the command words are in no form. Want of memory is the one free answer.
pub fn read_words(alloc: Global, words: &[String]) -> Result<Plan, WordsFault>
    ensures { MatchResult result (λ plan. plan_of (map string_bytes words.now) ≡ Some plan)
        (λ fault. fault ≡ WordsFault.Usage → plan_of (map string_bytes words.now) ≡ None) }
{
    if has_foreign(words) {
        return Err(WordsFault::Usage);
    }
    match found_in(alloc, words) {
        Ok(found) => plan_of_found(found).ok_or(WordsFault::Usage),
        Err(fault) => match fault.kind() {
            ErrorKind::OutOfMemory => Err(WordsFault::OutOfMemory),
            _ => Err(WordsFault::Usage),
        },
    }
}
