ghost use Rattle.std.specs.Prelude.{◌≡◌, ◌<◌, ◌≤◌, None, Some, length, nat_lt, MatchResult};
ghost use Rattle.za_text.specs.Numbers.{numeral_value};
ghost use Rattle.za_lang.specs.declared.version.Version.TheVariants.{One, Two};
ghost use Rattle.za_lang.specs.Documents.{first_number, version_said};
ghost use Rattle.za_lang.specs.Limits.{document_processes, document_states};
ghost use Rattle.za_lang.specs.Tests.{end_line_fault, header_line_fault, process_meant, process_wrong};
ghost use Rattle.za_lang.specs.Tests.{process_number_fault, processes_fault, process_count_fault, start_line_fault};
ghost use Rattle.za_lang.specs.Tests.{state_fault, states_fault, states_line_fault};

use crate::limits::{PLAIN_PROCESSES, most_states, wrong_states};
use crate::order::Head;
use crate::version::Version;
use crate::words::Words;
use za_text::{Kind, Names, number};

/// The version that a header line says, by its words after the first.
pub(crate) fn header_said(mut words: Words) -> Result<Version, Kind>
    ensures { MatchResult result
        (λ version. (header_line_fault words.entry ≡ None) × (version ≡ version_said Head.Zla words.entry))
        (λ kind. header_line_fault words.entry ≡ Some kind) }
{
    let Some(word) = words.next() else {
        return Err(Kind::Header);
    };
    if words.next().is_some() {
        return Err(Kind::Header);
    }
    if word == b"1".as_slice() {
        return Ok(Version::One);
    }
    if word == b"2".as_slice() {
        return Ok(Version::Two);
    }
    Err(Kind::Header)
}

/// The own test of an end line, by its words after the first.
pub fn end_line_fault(mut words: Words) -> Option<Kind>
    ensures { result ≡ end_line_fault words.entry }
{
    match words.next() {
        None => None,
        Some(_word) => Some(Kind::WordCount),
    }
}

fn count_of_processes(count: Option<u32>) -> Result<u32, Kind>
    ensures { MatchResult result
        (λ n. (processes_fault count ≡ None) × (count ≡ Some n) × (1 ≤ n) × (n ≤ document_processes One))
        (λ kind. processes_fault count ≡ Some kind) }
{
    match count {
        None => Err(Kind::BadNumber),
        Some(n) => {
            if 1 <= n && n <= PLAIN_PROCESSES {
                Ok(n)
            } else {
                Err(Kind::ProcessCount)
            }
        }
    }
}

/// The number of processes that a line of version 1 says, by its words after the first.
pub(crate) fn processes_said(mut words: Words) -> Result<u32, Kind>
    ensures { MatchResult result
        (λ n. (process_count_fault words.entry ≡ None)
        × (first_number words.entry ≡ Some n) × (1 ≤ n) × (n ≤ document_processes One))
        (λ kind. process_count_fault words.entry ≡ Some kind) }
{
    match words.next() {
        None => Err(Kind::WordCount),
        Some(word) => {
            if words.next().is_some() {
                return Err(Kind::WordCount);
            }
            count_of_processes(number(word))
        }
    }
}

fn count_of_states(version: Version, count: Option<u32>) -> Result<u32, Kind>
    ensures { MatchResult result
        (λ n. (states_fault version count ≡ None) × (count ≡ Some n) × (1 ≤ n) × (n ≤ document_states version))
        (λ kind. states_fault version count ≡ Some kind) }
{
    match count {
        None => Err(Kind::BadNumber),
        Some(n) => {
            if 1 <= n && n <= most_states(version) {
                Ok(n)
            } else {
                Err(wrong_states(version))
            }
        }
    }
}

/// The number of states that a line says, by its words after the first.
pub(crate) fn states_said(version: Version, mut words: Words) -> Result<u32, Kind>
    ensures { MatchResult result
        (λ n. (states_line_fault version words.entry ≡ None)
        × (first_number words.entry ≡ Some n) × (1 ≤ n) × (n ≤ document_states version))
        (λ kind. states_line_fault version words.entry ≡ Some kind) }
{
    match words.next() {
        None => Err(Kind::WordCount),
        Some(word) => {
            if words.next().is_some() {
                return Err(Kind::WordCount);
            }
            count_of_states(version, number(word))
        }
    }
}

/// The process of this number.
fn process_of_number(processes: usize, word: &[u8]) -> Result<usize, Kind>
    ensures { MatchResult result
        (λ p. (process_number_fault processes (numeral_value word.now) ≡ None)
        × (numeral_value word.now ≡ Some p) × (p < processes))
        (λ kind. process_number_fault processes (numeral_value word.now) ≡ Some kind) }
{
    match number(word) {
        None => Err(Kind::BadNumber),
        Some(p) => {
            if (p as usize) < processes {
                Ok(p as usize)
            } else {
                Err(Kind::NoSuchProcess)
            }
        }
    }
}

/// The process that the word means: in version 1 by its number, in version 2 by its name.
pub(crate) fn process_of(version: Version, names: &Names, word: &[u8]) -> Result<usize, Kind>
    ensures { MatchResult result
        (λ p. (process_wrong version names.now word.now ≡ None)
        × (process_meant version names.now word.now ≡ Some p) × (p < length names.now))
        (λ kind. process_wrong version names.now word.now ≡ Some kind) }
{
    match version {
        Version::One => process_of_number(names.len(), word),
        Version::Two => match names.find(word) {
            Some(p) => Ok(p),
            None => Err(Kind::NoSuchProcess),
        },
    }
}

/// The state of this number.
pub(crate) fn state_of(states: usize, word: &[u8]) -> Result<u8, Kind>
    requires { states ≤ document_states Two }
    ensures { MatchResult result
        (λ q. (state_fault states (numeral_value word.now) ≡ None) × (numeral_value word.now ≡ Some q) × (q < states))
        (λ kind. state_fault states (numeral_value word.now) ≡ Some kind) }
{
    match number(word) {
        None => Err(Kind::BadNumber),
        Some(q) => {
            if (q as usize) < states {
                Ok(q as u8)
            } else {
                Err(Kind::NoSuchState)
            }
        }
    }
}

/// The start state that a line says, by its words after the first.
pub(crate) fn start_said(states: usize, mut words: Words) -> Result<u8, Kind>
    requires { states ≤ document_states Two }
    ensures { MatchResult result
        (λ q. (start_line_fault states words.entry ≡ None) × (first_number words.entry ≡ Some q) × (q < states))
        (λ kind. start_line_fault states words.entry ≡ Some kind) }
{
    match words.next() {
        None => Err(Kind::WordCount),
        Some(word) => {
            if words.next().is_some() {
                return Err(Kind::WordCount);
            }
            state_of(states, word)
        }
    }
}
