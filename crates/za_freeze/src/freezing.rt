//! The text of a job whose processes are frozen.

ghost use Rattle.std.specs.Prelude.{◌≡◌, ℕ, ◌<◌, ◌≤◌, ◌++◌, List, IfOk, OnOk, length, map};
ghost use Rattle.std.specs.List.{range_with_len};
ghost use Rattle.za_alpha.specs.Words.{IsWord};
ghost use Rattle.za_alpha.specs.Letters.{numbers};
ghost use Rattle.za_dfa.specs.Partials.{completion};
ghost use Rattle.za_min.specs.Minimal.{IsMinimalOf};
ghost use Rattle.za_script.specs.ScriptLists.{FitAlphabet};
ghost use Rattle.za_text.specs.Printed.{line, text_of};
ghost use Rattle.za_lang.specs.Answers.{data_of};
ghost use Rattle.za_local.specs.Locals.{local_after, AreAllLocalsAfter};
ghost use Rattle.za_freeze.specs.Frozen.{at_words, at_line, text_after, frozen_text};

use crate::playing::{first_letters, locals_after};
use std::alloc::Global;
use za_alpha::{Letter, OutOfMemory};
use za_dfa::Closed;
use za_lang::Job;
use za_local::Local;
use za_print::print_job;
use za_report::push_known;
use za_script::{count_of, weave};
use za_text::Names;
use za_write::{push_number, push_number_line, push_word};

/// The line of a process of a name after the letters, by its local state.
fn push_process(
    text: &mut Vec<u8>,
    name: &[u8],
    closed: &Closed,
    letters: &[Letter],
    p: usize,
    local: &Local,
) -> Result<(), OutOfMemory>
    requires word { IsWord (length closed.now.alphabet.letters) (numbers letters.now) }
    requires local { local.now ≡ local_after closed.now (numbers letters.now) p }
    ensures { OnOk result (text.new.items
        ≡ text.old.items ++ line (at_words closed.now (numbers letters.now) p name.now)) }
{
    let count = count_of(closed.dfa().alphabet(), p, letters);
    text.extend_from_slice(b"at")?;
    push_word(text, name)?;
    push_number(text, count)?;
    push_known(text, closed, local)?;
    text.push(b'\n')?;
    Ok(())
}

/// The lines of all processes after the letters.
fn push_processes(
    text: &mut Vec<u8>,
    names: &Names,
    closed: &Closed,
    letters: &[Letter],
    locals: &[Local],
) -> Result<(), OutOfMemory>
    requires names { length names.now ≡ closed.now.alphabet.processes }
    requires locals { AreAllLocalsAfter closed.now (numbers letters.now) locals.now }
    ensures { OnOk result (text.new.items ≡ text.old.items
        ++ text_of (map (at_line names.now closed.now (numbers letters.now))
        (range_with_len 0 closed.now.alphabet.processes))) }
{
    for p in 0..closed.dfa().alphabet().processes() {
        push_process(text, names.of(p), closed, letters, p, &locals[p])?;
    }
    Ok(())
}

/// The text of a job whose processes are frozen after the letters, by their local states.
pub(crate) fn text_after(
    alloc: Global,
    job: &Job,
    closed: &Closed,
    letters: &[Letter],
    locals: &[Local],
) -> Result<Vec<u8>, OutOfMemory>
    requires fit { FitAlphabet job.now.lang.table.alphabet job.now.scripts }
    requires alphabet { closed.now.alphabet ≡ job.now.lang.table.alphabet }
    requires locals { AreAllLocalsAfter closed.now (numbers letters.now) locals.now }
    ensures { IfOk result (λ text. text.items ≡ text_after (data_of job.now) closed.now (numbers letters.now)) }
{
    let mut text = print_job(alloc, job)?;
    push_number_line(&mut text, b"cut", letters.len())?;
    push_processes(&mut text, job.lang.names(), closed, letters, locals)?;
    text.extend_from_slice(b"end\n")?;
    Ok(text)
}

/// The frozen text of a job after `k` firings of its weave, or after all where there are fewer: its
/// printed form, how many events there were, for each process how many events it has and what it knows, its
/// local state after them (Mukund 2012), and `end`.
///
/// The scripts have to fit the job's alphabet, and `closed` is what `close` gives for its completed DFA.
/// Want of memory is the one free answer.
pub fn freeze(alloc: Global, job: &Job, closed: &Closed, k: u32) -> Result<Vec<u8>, OutOfMemory>
    requires fit { FitAlphabet job.now.lang.table.alphabet job.now.scripts }
    requires closed { IsMinimalOf closed.now (completion job.now.lang.table) }
    ensures { IfOk result (λ text. text.items ≡ frozen_text (data_of job.now) closed.now k) }
{
    let woven = weave(alloc, job.lang.alphabet(), &job.scripts)?;
    let letters = first_letters(woven.word().letters(), k as usize);
    let locals = locals_after(alloc, closed, letters)?;
    text_after(alloc, job, closed, letters, locals.as_slice())
}
