//! The text of an answer.

ghost use Rattle.std.specs.Prelude.{◌≡◌, ◌↔◌, ◌<◌, ◌≤◌, ◌++◌, false, IsTrue, IfOk, OnOk, is_some, length, map};
ghost use Rattle.std.specs.List.{range_with_len};
ghost use Rattle.za_alpha.specs.Words.{IsWord};
ghost use Rattle.za_alpha.specs.Letters.{numbers};
ghost use Rattle.za_script.specs.ScriptLists.{FitAlphabet};
ghost use Rattle.za_script.specs.Woven.{IsWeave};
ghost use Rattle.za_text.specs.Printed.{spaced, line, text_of};
ghost use Rattle.za_report.specs.Texts.{answer_text, process_line, process_words, stuck_lines};
ghost use Rattle.za_report.specs.Texts.{wait_words};

use crate::bounds::push_bounds;
use crate::closed::push_names_line;
use crate::hope::push_hope_line;
use std::alloc::Global;
use za_alpha::{Alphabet, Letter, OutOfMemory};
use za_claim::answer_word;
use za_min::Hope;
use za_script::{Answer, Scripts, Woven};
use za_text::Names;
use za_write::{push_number, push_number_line, push_word};

/// What a process waits for after so many of its events: the next letter of its script, if there
/// is one.
fn push_wait(
    text: &mut Vec<u8>,
    alphabet: &Alphabet,
    script: &[Letter],
    fired: usize,
) -> Result<(), OutOfMemory>
    requires { IsWord (length alphabet.now.letters) (numbers script.now) }
    ensures { OnOk result (text.new.items ≡ text.old.items
        ++ spaced (wait_words alphabet.now (numbers script.now) fired)) }
{
    if fired < script.len() {
        push_word(text, b"waits")?;
        push_word(text, alphabet.name(script[fired]))
    } else {
        push_word(text, b"ended")
    }
}

/// The line of the process of a name after so many of its events.
fn push_process_words(
    text: &mut Vec<u8>,
    alphabet: &Alphabet,
    script: &[Letter],
    name: &[u8],
    fired: usize,
) -> Result<(), OutOfMemory>
    requires { IsWord (length alphabet.now.letters) (numbers script.now) }
    ensures { OnOk result (text.new.items ≡ text.old.items
        ++ line (process_words alphabet.now (numbers script.now) name.now fired)) }
{
    text.extend_from_slice(b"process")?;
    push_word(text, name)?;
    push_word(text, b"fired")?;
    push_number(text, fired)?;
    push_wait(text, alphabet, script, fired)?;
    text.push(b'\n')?;
    Ok(())
}

/// The line of a process where the scripts are stuck.
fn push_process(
    text: &mut Vec<u8>,
    names: &Names,
    alphabet: &Alphabet,
    scripts: &Scripts,
    woven: &Woven,
    p: usize,
) -> Result<(), OutOfMemory>
    requires names { length names.now ≡ alphabet.now.processes }
    requires fit { FitAlphabet alphabet.now scripts.now }
    requires woven { IsWeave alphabet.now scripts.now woven.now }
    requires process { p < alphabet.now.processes }
    ensures { OnOk result (text.new.items ≡ text.old.items
        ++ line (process_line names.now alphabet.now scripts.now woven.now.word p)) }
{
    let script = scripts.script(p).letters();
    push_process_words(text, alphabet, script, names.of(p), woven.count(p))
}

/// The lines of the first processes, so many, where the scripts are stuck.
fn push_processes(
    text: &mut Vec<u8>,
    names: &Names,
    alphabet: &Alphabet,
    scripts: &Scripts,
    woven: &Woven,
    processes: usize,
) -> Result<(), OutOfMemory>
    requires names { length names.now ≡ alphabet.now.processes }
    requires fit { FitAlphabet alphabet.now scripts.now }
    requires woven { IsWeave alphabet.now scripts.now woven.now }
    requires processes { processes ≤ alphabet.now.processes }
    ensures { OnOk result (text.new.items ≡ text.old.items
        ++ text_of (map (process_line names.now alphabet.now scripts.now woven.now.word)
        (range_with_len 0 processes))) }
{
    for p in 0..processes {
        push_process(text, names, alphabet, scripts, woven, p)?;
    }
    Ok(())
}

/// The lines where the scripts are stuck: each process, the word that fired, and the hope.
fn push_stuck(
    text: &mut Vec<u8>,
    names: &Names,
    alphabet: &Alphabet,
    scripts: &Scripts,
    woven: &Woven,
    hope: Hope,
) -> Result<(), OutOfMemory>
    requires names { length names.now ≡ alphabet.now.processes }
    requires fit { FitAlphabet alphabet.now scripts.now }
    requires woven { IsWeave alphabet.now scripts.now woven.now }
    ensures { OnOk result (text.new.items ≡ text.old.items
        ++ text_of (stuck_lines names.now alphabet.now scripts.now woven.now.word hope)) }
{
    push_processes(text, names, alphabet, scripts, woven, alphabet.processes())?;
    push_names_line(text, b"trace", alphabet, woven.word().letters())?;
    push_hope_line(text, hope)?;
    Ok(())
}

/// The text of an answer to scripts: how many events fired, the bounds with so many cache rows, and
/// where the scripts are stuck how far each process came, by its name, the word that fired, and whether
/// what fired can still become an accepted word. There is one name for each process.
///
/// `woven` is what `weave` gives for this alphabet and these scripts, and the answer is stuck exactly
/// if it isn't whole. A hope comes exactly with a stuck answer. Want of memory is the one free answer.
pub fn answer_text(
    alloc: Global,
    names: &Names,
    alphabet: &Alphabet,
    scripts: &Scripts,
    woven: &Woven,
    answer: Answer,
    hope: Option<Hope>,
    cache: u8,
) -> Result<Vec<u8>, OutOfMemory>
    requires names { length names.now ≡ alphabet.now.processes }
    requires fit { FitAlphabet alphabet.now scripts.now }
    requires woven { IsWeave alphabet.now scripts.now woven.now }
    requires stuck { answer ≡ Answer.Stuck ↔ woven.now.whole ≡ false }
    requires hope { IsTrue (is_some hope) ↔ answer ≡ Answer.Stuck }
    ensures { IfOk result
        (λ text. text.items ≡ answer_text names.now alphabet.now scripts.now woven.now.word answer hope cache) }
{
    let mut text = Vec::from_slice(alloc, answer_word(answer))?;
    text.push(b'\n')?;
    push_number_line(&mut text, b"fired", woven.word().len())?;
    push_bounds(&mut text, alphabet, cache)?;
    if let Some(hope) = hope {
        push_stuck(&mut text, names, alphabet, scripts, woven, hope)?;
    }
    Ok(text)
}
