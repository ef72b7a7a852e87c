//! What the lines from the start line on say is put into the job at once: its parts are the alphabet,
//! the table and the scripts themselves.

ghost use Rattle.std.specs.Prelude.{◌≡◌, ◌<◌, ◌∷◌, ◌++◌, [], List, None, Some, true};
ghost use Rattle.std.specs.Prelude.{length, IfOk, IfSome, MatchResult, OnOk, if◌then◌else◌};
ghost use Rattle.std.specs.List.{filter_map};
ghost use Rattle.za_text.specs.Numbers.{numeral_value};
ghost use Rattle.za_text.specs.declared.kind.Kind.TheVariants.{TwoTargets};
ghost use Rattle.za_alpha.specs.Alphabet.{place_of, IsDistributed};
ghost use Rattle.za_dfa.specs.declared.rows.Row as declared_row;
ghost use Rattle.za_dfa.specs.Rows.{has_other};
ghost use Rattle.za_dfa.specs.Entered.{AreEntered};
ghost use Rattle.za_script.specs.ScriptLists.{total_of, AreScripts};
ghost use Rattle.za_lang.specs.Answers.{data_of};
ghost use Rattle.za_lang.specs.Documents.{rows_said};
ghost use Rattle.za_lang.specs.Jobs.{IsJob};
ghost use Rattle.za_lang.specs.Items.{item_letters, item_of, letters_of_items, run_of};
ghost use Rattle.za_lang.specs.Namings.{IsLangData};
ghost use Rattle.za_lang.specs.Gathering.{is_late_head, marked, AreAdded, IsTaken, IsWrong};
ghost use Rattle.za_lang.specs.Tests.{accept_line_fault, item_fault, items_fault, row_line_fault, step_fault};

use crate::fault::Refusal;
use crate::items::{Item, item_of};
use crate::job::Job;
use crate::lang::Lang;
use crate::line_tests::{end_line_fault, process_of, start_said, state_of};
use crate::order::Head;
use crate::version::Version;
use crate::words::Words;
use za_alpha::{Alphabet, Letter};
use za_script::Scripts;
use za_text::Kind;

/// Lets the states that the words name accept.
fn accept_states(lang: &mut Lang, mut words: Words) -> Result<(), Kind>
    ensures taken { let accepting = marked lang.old.table.accepting (filter_map numeral_value words.entry) in
        MatchResult result
        (λ _. (accept_line_fault lang.old.table.states words.entry ≡ None)
        × (lang.new ≡ record lang.old { table = record lang.old.table { accepting = accepting } }))
        (λ kind. accept_line_fault lang.old.table.states words.entry ≡ Some kind) }
    ensures whole { OnOk result (IsLangData lang.new) }
{
    let states = lang.states();
    while let Some(word) = words.next() {
        let q = state_of(states, word)?;
        lang.accept(q);
    }
    Ok(())
}

/// The state, the letter and the state of a row.
#[derive(Clone, Copy)]
struct RowSaid {
    from: u8,
    letter: Letter,
    to: u8,
}

/// The row that the words say: a state, a letter and a state.
#[tactic(auto, unfolding(crate::specs::Tests::new_row_fault))]
fn row_said(lang: &Lang, mut words: Words) -> Result<RowSaid, Kind>
    ensures said { MatchResult result
        (λ row. (rows : List declared_row.Row) →
        row_line_fault lang.now.table.states lang.now.table.alphabet.letters rows words.entry
        ≡ (if has_other rows row.from row.letter.0 row.to then Some TwoTargets else None))
        (λ kind. (rows : List declared_row.Row) →
        row_line_fault lang.now.table.states lang.now.table.alphabet.letters rows words.entry ≡ Some kind) }
    ensures row { IfOk result (λ row.
        (rows_said lang.now.table.alphabet.letters Head.Row words.entry
        ≡ record { from = row.from; letter = row.letter; to = row.to } ∷ [])
        × (row.from < lang.now.table.states)
        × (row.letter.0 < length lang.now.table.alphabet.letters)
        × (row.to < lang.now.table.states)) }
{
    let Some(from) = words.next() else {
        return Err(Kind::WordCount);
    };
    let Some(name) = words.next() else {
        return Err(Kind::WordCount);
    };
    let Some(to) = words.next() else {
        return Err(Kind::WordCount);
    };
    if words.next().is_some() {
        return Err(Kind::WordCount);
    }
    let from = state_of(lang.states(), from)?;
    let Some(letter) = lang.alphabet().find(name) else {
        return Err(Kind::NoSuchLetter);
    };
    let to = state_of(lang.states(), to)?;
    Ok(RowSaid { from, letter, to })
}

/// Enters the row that the words say.
fn take_row(lang: &mut Lang, words: Words) -> Result<(), Refusal>
    ensures whole { OnOk result (IsLangData lang.new) }
    ensures same { OnOk result
        (lang.new ≡ record lang.old { table = record lang.old.table { targets = lang.new.table.targets } }) }
    ensures rows { (rows : List declared_row.Row) → AreEntered lang.old.table rows →
        let fault = row_line_fault lang.old.table.states lang.old.table.alphabet.letters rows words.entry in
        let said = rows_said lang.old.table.alphabet.letters Head.Row words.entry in
        MatchResult result (λ _. (fault ≡ None) × AreEntered lang.new.table (rows ++ said)) (IsWrong fault) }
{
    let row = row_said(lang, words)?;
    lang.enter(row.from, row.letter, row.to)?;
    Ok(())
}

/// Appends a letter to a script.
fn add_letter(
    alphabet: &Alphabet,
    scripts: &mut Scripts,
    p: usize,
    a: Letter,
) -> Result<(), Refusal>
    requires process { p < length scripts.old }
    requires of_alphabet { p < alphabet.now.processes }
    requires limits { AreScripts scripts.old }
    requires letter { a.0 < length alphabet.now.letters }
    ensures { let fault = step_fault alphabet.now.letters p (total_of scripts.old) (Some a.0) (Some 1) in
        MatchResult result
        (λ _. (fault ≡ None) × AreAdded alphabet.now scripts.old scripts.new p (run_of (Some a.0) (Some 1)))
        (IsWrong fault) }
{
    scripts.add(alphabet, p, a)?;
    Ok(())
}

/// Appends the letters of an item to a script.
fn add_run(alphabet: &Alphabet, scripts: &mut Scripts, p: usize, item: Item) -> Result<(), Refusal>
    requires process { p < length scripts.old }
    requires of_alphabet { p < alphabet.now.processes }
    requires limits { AreScripts scripts.old }
    requires some { IfSome item.count (λ count. 0 < count) }
    ensures { let place = place_of alphabet.now.letters item.entry.name.now in
        let fault = step_fault alphabet.now.letters p (total_of scripts.old) place item.entry.count in
        MatchResult result
        (λ _. (fault ≡ None) × AreAdded alphabet.now scripts.old scripts.new p (run_of place item.entry.count))
        (IsWrong fault) }
{
    let Some(a) = alphabet.find(item.name) else {
        return Err(Refusal::Wrong(Kind::NoSuchLetter));
    };
    if !alphabet.loc(a).has(p) {
        return Err(Refusal::Wrong(Kind::NotOfProcess));
    }
    let Some(count) = item.count else {
        return Err(Refusal::Wrong(Kind::BadRepeat));
    };
    scripts.add_run(alphabet, p, a, count)?;
    Ok(())
}

/// Appends the letters that a word stands for to a script. A name has no `*`, so a letter's name stands for this letter
/// in each version.
fn add_item(
    alphabet: &Alphabet,
    scripts: &mut Scripts,
    version: Version,
    p: usize,
    word: &[u8],
) -> Result<(), Refusal>
    requires process { p < length scripts.old }
    requires of_alphabet { p < alphabet.now.processes }
    requires limits { AreScripts scripts.old }
    requires names { IsDistributed alphabet.now }
    ensures { let item = item_of version word.now in
        let fault = item_fault alphabet.now.letters p (total_of scripts.old) item in
        let letters = item_letters alphabet.now.letters item in
        MatchResult result
        (λ _. (fault ≡ None) × AreAdded alphabet.now scripts.old scripts.new p letters)
        (IsWrong fault) }
{
    match alphabet.find(word) {
        Some(a) => add_letter(alphabet, scripts, p, a),
        None => add_run(alphabet, scripts, p, item_of(version, word)),
    }
}

/// Appends the letters that the words stand for to a script.
fn add_items(
    alphabet: &Alphabet,
    scripts: &mut Scripts,
    version: Version,
    p: usize,
    mut words: Words,
) -> Result<(), Refusal>
    requires process { p < length scripts.old }
    requires of_alphabet { p < alphabet.now.processes }
    requires limits { AreScripts scripts.old }
    requires names { IsDistributed alphabet.now }
    ensures { let letters = letters_of_items version alphabet.now.letters words.entry in
        let fault = items_fault version alphabet.now.letters p (total_of scripts.old) words.entry in
        MatchResult result
        (λ _. (fault ≡ None) × AreAdded alphabet.now scripts.old scripts.new p letters)
        (IsWrong fault) }
{
    while let Some(word) = words.next() {
        add_item(alphabet, scripts, version, p, word)?;
    }
    Ok(())
}

/// What a start line says, by its words after the first.
fn take_start(job: &mut Job, words: Words) -> Result<(), Refusal>
    requires { IsJob (data_of job.old) }
    ensures whole { OnOk result (IsJob (data_of job.new)) }
    ensures taken { IsTaken Head.Start words.entry (data_of job.old) (data_of job.new) result }
{
    let q = start_said(job.lang.states(), words)?;
    job.lang.start_at(q);
    Ok(())
}

/// What an accept line says, by its words after the first.
fn take_accept(job: &mut Job, words: Words) -> Result<(), Refusal>
    requires { IsJob (data_of job.old) }
    ensures whole { OnOk result (IsJob (data_of job.new)) }
    ensures taken { IsTaken Head.Accept words.entry (data_of job.old) (data_of job.new) result }
{
    accept_states(&mut job.lang, words)?;
    Ok(())
}

/// What a row line says, by its words after the first.
fn take_row_line(job: &mut Job, words: Words) -> Result<(), Refusal>
    requires { IsJob (data_of job.old) }
    ensures whole { OnOk result (IsJob (data_of job.new)) }
    ensures taken { IsTaken Head.Row words.entry (data_of job.old) (data_of job.new) result }
{
    take_row(&mut job.lang, words)?;
    Ok(())
}

/// What a script line says, by its words after the first.
fn take_script(job: &mut Job, mut words: Words) -> Result<(), Refusal>
    requires { IsJob (data_of job.old) }
    ensures whole { OnOk result (IsJob (data_of job.new)) }
    ensures taken { IsTaken Head.Script words.entry (data_of job.old) (data_of job.new) result }
{
    let Some(word) = words.next() else {
        return Err(Refusal::Wrong(Kind::WordCount));
    };
    let version = job.lang.lines_version();
    let p = process_of(version, job.lang.names(), word)?;
    add_items(job.lang.alphabet(), &mut job.scripts, version, p, words)?;
    Ok(())
}

/// What an end line says, which is nothing, by its words after the first.
fn take_end(job: &mut Job, words: Words) -> Result<(), Refusal>
    requires { IsJob (data_of job.old) }
    ensures whole { OnOk result (IsJob (data_of job.new)) }
    ensures taken { IsTaken Head.End words.entry (data_of job.old) (data_of job.new) result }
{
    match end_line_fault(words) {
        None => Ok(()),
        Some(kind) => Err(Refusal::Wrong(kind)),
    }
}

/// What a line after the states line says, by its first word and the words after it.
pub(crate) fn take_line(job: &mut Job, head: Head, words: Words) -> Result<(), Refusal>
    requires whole { IsJob (data_of job.old) }
    requires late { is_late_head head ≡ true }
    ensures whole { OnOk result (IsJob (data_of job.new)) }
    ensures taken { IsTaken head words.entry (data_of job.old) (data_of job.new) result }
{
    match head {
        Head::Start => take_start(job, words),
        Head::Accept => take_accept(job, words),
        Head::Row => take_row_line(job, words),
        Head::Script => take_script(job, words),
        Head::End => take_end(job, words),
        _ => Err(Refusal::Wrong(Kind::OutOfOrder)),
    }
}
