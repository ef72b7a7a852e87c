//! The printed form of a job.

ghost use Rattle.std.specs.Prelude.{◌≡◌, ℕ, None, ◌<◌, ◌≤◌, ◌*◌, ◌++◌, ◌∷◌, [], IfOk, OnOk, IsTrue, length, map};
ghost use Rattle.std.specs.Prelude.{codes, decimal, if◌then◌else◌};
ghost use Rattle.std.specs.List.{range_with_len};
ghost use Rattle.std.specs.Option.{option_to_list};
ghost use Rattle.za_alpha.specs.Words.{has};
ghost use Rattle.za_alpha.specs.Procs.{members};
ghost use Rattle.za_script.specs.ScriptLists.{FitAlphabet};
ghost use Rattle.za_text.specs.Printed.{spaced, line, text_of};
ghost use Rattle.za_lang.specs.Answers.{data_of};
ghost use Rattle.za_lang.specs.Documents.{fault_of, job_of};
ghost use Rattle.za_text.specs.ProcessNames.{name_of};
ghost use Rattle.za_dfa.specs.Limits.{most_states};
ghost use Rattle.za_print.specs.Printed.{letter_line, accepting_states, accept_line, row_line};
ghost use Rattle.za_print.specs.Printed.{processes_words, processes_line, version_word};
ghost use Rattle.za_print.specs.Printed.{row_of_cell, row_lines, script_line, printed};

use crate::items::push_items;
use std::alloc::Global;
use za_alpha::{Alphabet, Letter, OutOfMemory, Procs};
use za_dfa::Row;
use za_lang::{Job, Lang};
use za_script::Scripts;
use za_text::Names;
use za_write::{push_number, push_number_if, push_number_line, push_word};

/// How many processes a set can tell apart.
const WIDTH: usize = 16;

/// The name of a process after a space, if it is wanted.
fn push_name_if(
    text: &mut Vec<u8>,
    names: &Names,
    is_wanted: bool,
    p: usize,
) -> Result<(), OutOfMemory>
    requires { IsTrue is_wanted → p < length names.now }
    ensures { OnOk result (text.new.items
        ≡ text.old.items ++ (if is_wanted then spaced (name_of names.now p ∷ []) else [])) }
{
    if is_wanted {
        push_word(text, names.of(p))
    } else {
        Ok(())
    }
}

/// The names of the processes of a set in rising order, each after a space.
fn push_processes(text: &mut Vec<u8>, names: &Names, processes: Procs) -> Result<(), OutOfMemory>
    requires { (p : ℕ) → IsTrue (has (members processes) p) → p < length names.now }
    ensures { OnOk result (text.new.items
        ≡ text.old.items ++ spaced (map (name_of names.now) (members processes))) }
{
    for p in 0..WIDTH {
        push_name_if(text, names, processes.has(p), p)?;
    }
    Ok(())
}

/// The line of a letter.
fn push_letter(
    text: &mut Vec<u8>,
    names: &Names,
    name: &[u8],
    processes: Procs,
) -> Result<(), OutOfMemory>
    requires { (p : ℕ) → IsTrue (has (members processes) p) → p < length names.now }
    ensures { OnOk result (text.new.items
        ≡ text.old.items ++ line (codes "letter" ∷ name.now ∷ map (name_of names.now) (members processes))) }
{
    text.extend_from_slice(b"letter")?;
    push_word(text, name)?;
    push_processes(text, names, processes)?;
    text.push(b'\n')?;
    Ok(())
}

/// The lines of all letters.
fn push_letters(text: &mut Vec<u8>, names: &Names, alphabet: &Alphabet) -> Result<(), OutOfMemory>
    requires { length names.now ≡ alphabet.now.processes }
    ensures { OnOk result (text.new.items
        ≡ text.old.items ++ text_of (map (letter_line names.now) alphabet.now.letters)) }
{
    for a in 0..alphabet.letters() {
        let letter = Letter(a as u8);
        push_letter(text, names, alphabet.name(letter), alphabet.loc(letter))?;
    }
    Ok(())
}

/// The names of all processes, each after a space.
fn push_all_names(text: &mut Vec<u8>, names: &Names) -> Result<(), OutOfMemory>
    ensures { OnOk result (text.new.items ≡ text.old.items ++ spaced names.now) }
{
    for p in 0..names.len() {
        push_word(text, names.of(p))?;
    }
    Ok(())
}

/// What a processes line says: in version 1 how many processes there are, in version 2 their names.
fn push_process_words(text: &mut Vec<u8>, lang: &Lang) -> Result<(), OutOfMemory>
    ensures { OnOk result (text.new.items
        ≡ text.old.items ++ spaced (processes_words lang.now.naming.version lang.now.naming.names)) }
{
    if lang.version() == 1 {
        push_number(text, lang.names().len())
    } else {
        push_all_names(text, lang.names())
    }
}

/// The line of the processes.
fn push_processes_line(text: &mut Vec<u8>, lang: &Lang) -> Result<(), OutOfMemory>
    ensures { OnOk result (text.new.items ≡ text.old.items ++ line (processes_line lang.now.naming)) }
{
    text.extend_from_slice(b"processes")?;
    push_process_words(text, lang)?;
    text.push(b'\n')?;
    Ok(())
}

/// The accepting states in rising order, each after a space.
fn push_accepting(text: &mut Vec<u8>, lang: &Lang) -> Result<(), OutOfMemory>
    ensures { OnOk result (text.new.items
        ≡ text.old.items ++ spaced (map decimal (accepting_states lang.now.table))) }
{
    for q in 0..lang.states() {
        push_number_if(text, lang.accepting(q as u8), q)?;
    }
    Ok(())
}

/// The line of the accepting states.
fn push_accept_line(text: &mut Vec<u8>, lang: &Lang) -> Result<(), OutOfMemory>
    ensures { OnOk result (text.new.items ≡ text.old.items ++ line (accept_line lang.now.table)) }
{
    text.extend_from_slice(b"accept")?;
    push_accepting(text, lang)?;
    text.push(b'\n')?;
    Ok(())
}

/// The line that says where a letter leads from a state.
fn push_row(text: &mut Vec<u8>, alphabet: &Alphabet, row: Row) -> Result<(), OutOfMemory>
    requires { row.letter.0 < length alphabet.now.letters }
    ensures { OnOk result (text.new.items ≡ text.old.items ++ line (row_line alphabet.now.letters row)) }
{
    text.extend_from_slice(b"row")?;
    push_number(text, row.from as usize)?;
    push_word(text, alphabet.name(row.letter))?;
    push_number(text, row.to as usize)?;
    text.push(b'\n')?;
    Ok(())
}

/// The line of a cell of the table, if it has a target. Cell `q * m + a` is that of state `q` and
/// letter `a`, where there are `m` letters.
fn push_cell(text: &mut Vec<u8>, lang: &Lang, cell: usize) -> Result<(), OutOfMemory>
    requires few { lang.now.table.states ≤ most_states }
    requires cell { cell < lang.now.table.states * length lang.now.table.alphabet.letters }
    ensures { OnOk result (text.new.items
        ≡ text.old.items ++ text_of (map (row_line lang.now.table.alphabet.letters)
        (option_to_list (row_of_cell lang.now.table cell)))) }
{
    let alphabet = lang.alphabet();
    let q = (cell / alphabet.letters()) as u8;
    let letter = Letter((cell % alphabet.letters()) as u8);
    if let Some(target) = lang.target(q, letter) {
        let row = Row {
            from: u32::from(q),
            letter,
            to: u32::from(target),
        };
        push_row(text, alphabet, row)?;
    }
    Ok(())
}

/// The lines of all rows, by state and then by letter.
fn push_rows(text: &mut Vec<u8>, lang: &Lang) -> Result<(), OutOfMemory>
    ensures { OnOk result (text.new.items ≡ text.old.items ++ text_of (row_lines lang.now.table)) }
{
    for cell in 0..lang.states() * lang.alphabet().letters() {
        push_cell(text, lang, cell)?;
    }
    Ok(())
}

/// The script line of a process.
fn push_script(
    text: &mut Vec<u8>,
    lang: &Lang,
    scripts: &Scripts,
    p: usize,
) -> Result<(), OutOfMemory>
    requires fit { FitAlphabet lang.now.table.alphabet scripts.now }
    requires process { p < length scripts.now }
    ensures { OnOk result (text.new.items
        ≡ text.old.items ++ line (script_line lang.now.naming lang.now.table.alphabet.letters scripts.now p)) }
{
    text.extend_from_slice(b"script")?;
    push_word(text, lang.names().of(p))?;
    push_items(
        text,
        lang.alphabet(),
        lang.version() == 2,
        scripts.script(p).letters(),
    )?;
    text.push(b'\n')?;
    Ok(())
}

/// The script lines of the first processes, so many.
fn push_scripts(
    text: &mut Vec<u8>,
    lang: &Lang,
    scripts: &Scripts,
    processes: usize,
) -> Result<(), OutOfMemory>
    requires fit { FitAlphabet lang.now.table.alphabet scripts.now }
    requires processes { processes ≤ length scripts.now }
    ensures { OnOk result (text.new.items
        ≡ text.old.items ++ text_of (map
        (script_line lang.now.naming lang.now.table.alphabet.letters scripts.now)
        (range_with_len 0 processes))) }
{
    for p in 0..processes {
        push_script(text, lang, scripts, p)?;
    }
    Ok(())
}

/// The header: the version of the document.
fn header(lang: &Lang) -> &'static [u8]
    ensures { result.now ≡ line (codes "zla" ∷ version_word lang.now.naming.version ∷ []) }
{
    if lang.version() == 1 {
        b"zla 1\n"
    } else {
        b"zla 2\n"
    }
}

/// The printed form of a job: its lines in the order of the grammar, one space between two words.
///
/// In version 2 the processes have their names in place of numbers, and each maximal run of one letter in
/// a script is one item; comments are not kept. A letter's processes, the accepting states, the rows (by
/// state, then by letter) and the processes of the script lines rise, and each process has one script
/// line, also where its script is empty. The scripts have to fit the alphabet. The printed form is a
/// document, and says an equal job. Want of memory is the one free answer.
pub fn print_job(alloc: Global, job: &Job) -> Result<Vec<u8>, OutOfMemory>
    requires { FitAlphabet job.now.lang.table.alphabet job.now.scripts }
    ensures text { IfOk result (λ text. text.items ≡ printed (data_of job.now)) }
    ensures read_back { IfOk result
        (λ text. (fault_of text.items ≡ None) × (job_of text.items ≡ data_of job.now)) }
{
    let lang = &job.lang;
    let mut text = Vec::from_slice(alloc, header(lang))?;
    push_processes_line(&mut text, lang)?;
    push_letters(&mut text, lang.names(), lang.alphabet())?;
    push_number_line(&mut text, b"states", lang.states())?;
    push_number_line(&mut text, b"start", lang.start() as usize)?;
    push_accept_line(&mut text, lang)?;
    push_rows(&mut text, lang)?;
    push_scripts(&mut text, lang, &job.scripts, job.scripts.processes())?;
    text.extend_from_slice(b"end\n")?;
    Ok(text)
}
