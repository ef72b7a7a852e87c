//! The lines up to the states line: their letters are those of an alphabet that is being made.

ghost use Rattle.std.specs.Prelude.{◌≡◌, ◌<◌, ◌≤◌, ◌++◌, [], ℕ, IsTrue, None, length, IfOk, MatchResult, OnOk};
ghost use Rattle.std.specs.List.{filter_map};
ghost use Rattle.za_alpha.specs.Limits.{most_processes};
ghost use Rattle.za_alpha.specs.Words.{has};
ghost use Rattle.za_alpha.specs.Procs.{members};
ghost use Rattle.za_alpha.specs.Rows.{set_of};
ghost use Rattle.za_lang.specs.Answers.{data_of};
ghost use Rattle.za_lang.specs.Documents.{first_number, letters_said, own_fault};
ghost use Rattle.za_lang.specs.Jobs.{IsJob};
ghost use Rattle.za_lang.specs.declared.version.Version.{Version};
ghost use Rattle.za_lang.specs.Order.{order_fault};
ghost use Rattle.za_lang.specs.Tests.{letter_line_fault, process_at, some_loc_fault, states_line_fault};
ghost use Rattle.za_lang.specs.Gathering.{more_said, IsWrong};
ghost use Rattle.za_lang.specs.Letters.{blank_job, AreFew, AreNamedLetters};
ghost use Rattle.za_lang.specs.Reading.{letters_place, letters_told, naming_of, Awaits, IsReading, Keeps};

use crate::fault::Refusal;
use crate::job::Job;
use crate::lang::Lang;
use crate::limits::{many_letters, most_letters};
use crate::line_tests::{process_of, states_said};
use crate::order::{Head, Place};
use crate::reading::Reading;
use crate::version::Version;
use crate::words::Words;
use std::alloc::Global;
use za_alpha::{Letters, Procs};
use za_script::Scripts;
use za_text::{Kind, Names};

/// The processes that the words mean.
fn procs_said(version: Version, names: &Names, mut words: Words) -> Result<Procs, Kind>
    requires { length names.now ≤ most_processes }
    ensures said { MatchResult result
        (λ procs. (some_loc_fault (naming_of version names.now) words.entry ≡ None)
        × (procs ≡ set_of (filter_map (process_at (naming_of version names.now)) words.entry)))
        (λ kind. some_loc_fault (naming_of version names.now) words.entry ≡ Some kind) }
    ensures below { IfOk result (λ procs. (p : ℕ) → IsTrue (has (members procs) p) → p < length names.now) }
    ensures some { IfOk result (λ procs. ¬ (members procs ≡ [])) }
{
    let Some(word) = words.next() else {
        return Err(Kind::EmptyLoc);
    };
    let mut procs = Procs::none().with(process_of(version, names, word)?);
    while let Some(word) = words.next() {
        procs = procs.with(process_of(version, names, word)?);
    }
    Ok(procs)
}

/// What a letter line says, by its words after the first.
fn take_letter(
    letters: &mut Letters,
    alloc: Global,
    version: Version,
    names: &Names,
    mut words: Words,
) -> Result<(), Refusal>
    requires { AreNamedLetters (naming_of version names.now) letters.old }
    ensures few { OnOk result (AreFew version letters.new) }
    ensures processes { OnOk result (letters.new.processes ≡ letters.old.processes) }
    ensures said { let naming = naming_of version names.now in
        let fault = letter_line_fault naming letters.old.letters words.entry in
        let said = letters_said naming Head.Letter words.entry in
        MatchResult result
        (λ _. (fault ≡ None) × (letters.new.letters ≡ letters.old.letters ++ said))
        (IsWrong fault) }
{
    let Some(name) = words.next() else {
        return Err(Refusal::Wrong(Kind::WordCount));
    };
    if most_letters(version) <= letters.len() {
        return Err(Refusal::Wrong(many_letters(version)));
    }
    if let Some(fault) = letters.name_fault(name) {
        return Err(Refusal::from(fault));
    }
    let procs = procs_said(version, names, words)?;
    let name = Vec::from_slice(alloc, name)?;
    letters.add(name, procs)?;
    Ok(())
}

/// What a states line says, by its words after the first: the job over these letters that has neither
/// rows nor script letters yet.
fn start_job(
    letters: Letters,
    alloc: Global,
    version: Version,
    names: Names,
    words: Words,
) -> Result<Job, Refusal>
    requires few { AreNamedLetters (naming_of version names) letters }
    requires some { 0 < length letters.letters }
    ensures whole { IfOk result (λ job. IsJob (data_of job)) }
    ensures said { MatchResult result
        (λ job. (states_line_fault version words.entry ≡ None)
        × ((n : ℕ) × ((first_number words.entry ≡ Some n)
        × (data_of job ≡ blank_job (naming_of version names) letters n))))
        (IsWrong (states_line_fault version words.entry)) }
{
    let states = states_said(version, words)?;
    let alphabet = letters.into_alphabet();
    let scripts = Scripts::empty(alloc, alphabet.processes())?;
    let lang = Lang::blank(alloc, version, names, alphabet, states as usize)?;
    Ok(Job { lang, scripts })
}

/// Where a document has come to after these letters.
pub(crate) fn place_of(letters: &Letters) -> Place
    ensures { result ≡ letters_place letters.now.letters }
{
    if letters.is_empty() {
        Place::AtFirstLetter
    } else {
        Place::AtLetters
    }
}

/// What a line after the processes line says, by its first word and the words after it.
pub(crate) fn after_letters(
    mut letters: Letters,
    alloc: Global,
    version: Version,
    names: Names,
    head: Head,
    words: Words,
) -> Result<Reading, Refusal>
    requires few { AreNamedLetters (naming_of version names) letters }
    requires order { order_fault (letters_place letters.letters) head ≡ None }
    ensures whole { IfOk result IsReading }
    ensures taken { let s = letters_told (naming_of version names) letters in MatchResult result
        (λ reading. (own_fault s head words.entry ≡ None) × Keeps reading (more_said s head words.entry)
        × ((later version : Version) → Awaits reading later version))
        (IsWrong (own_fault s head words.entry)) }
{
    match head {
        Head::Letter => {
            take_letter(&mut letters, alloc, version, &names, words)?;
            Ok(Reading::Letters {
                version,
                names,
                letters,
            })
        }
        Head::States => {
            let job = start_job(letters, alloc, version, names, words)?;
            Ok(Reading::Body {
                place: Place::AtStart,
                job,
            })
        }
        _ => Err(Refusal::Wrong(Kind::OutOfOrder)),
    }
}
