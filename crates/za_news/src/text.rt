//! The text of news.

ghost use Rattle.std.specs.Prelude.{◌≡◌, ◌<◌, ◌≤◌, ◌++◌, ◌∷◌, [], IfOk, OnOk, length, map};
ghost use Rattle.std.specs.List.{range_with_len};
ghost use Rattle.za_script.specs.ScriptLists.{FitAlphabet};
ghost use Rattle.za_text.specs.Printed.{line, spaced, text_of};
ghost use Rattle.za_text.specs.ProcessNames.{name_of};
ghost use Rattle.za_payload.specs.Circles.{known_in};
ghost use Rattle.za_lang.specs.Answers.{data_of};
ghost use Rattle.za_news.specs.Texts.{known_word, line_of_known, news_text};

use crate::job::NewsJob;
use crate::weaving::circle_after;
use std::alloc::Global;
use za_alpha::OutOfMemory;
use za_payload::Circle;
use za_script::weave;
use za_text::Names;
use za_write::{push_number, push_word};

/// What is known of a process, after a space: the number, or a hyphen for nothing.
fn push_known(text: &mut Vec<u8>, known: Option<u32>) -> Result<(), OutOfMemory>
    ensures { OnOk result (text.new.items ≡ text.old.items ++ spaced (known_word known ∷ [])) }
{
    match known {
        Some(number) => push_number(text, number as usize),
        None => push_word(text, b"-"),
    }
}

/// What process `p` knows of each of the first processes, so many.
fn push_all_known(
    text: &mut Vec<u8>,
    circle: &Circle,
    p: usize,
    processes: usize,
) -> Result<(), OutOfMemory>
    requires first { p < circle.now.processes }
    requires within { processes ≤ circle.now.processes }
    ensures { OnOk result (text.new.items ≡ text.old.items
        ++ spaced (map (λ q. known_word (known_in circle.now.known p q)) (range_with_len 0 processes))) }
{
    for q in 0..processes {
        push_known(text, circle.known(p, q))?;
    }
    Ok(())
}

/// The line of process `p`, which has the name.
fn push_line(
    text: &mut Vec<u8>,
    name: &[u8],
    circle: &Circle,
    p: usize,
    processes: usize,
) -> Result<(), OutOfMemory>
    requires first { p < circle.now.processes }
    requires within { processes ≤ circle.now.processes }
    ensures { OnOk result (text.new.items ≡ text.old.items
        ++ line (line_of_known name.now processes (known_in circle.now.known p))) }
{
    text.extend_from_slice(b"known")?;
    push_word(text, name)?;
    push_all_known(text, circle, p, processes)?;
    text.push(b'\n')?;
    Ok(())
}

/// The lines of the first processes, so many, of a circle whose processes have these names.
fn push_lines(
    text: &mut Vec<u8>,
    names: &Names,
    circle: &Circle,
    processes: usize,
) -> Result<(), OutOfMemory>
    requires names { processes ≤ length names.now }
    requires within { processes ≤ circle.now.processes }
    ensures { OnOk result (text.new.items ≡ text.old.items
        ++ text_of (map (λ p. line_of_known (name_of names.now p) processes (known_in circle.now.known p))
        (range_with_len 0 processes))) }
{
    for p in 0..processes {
        push_line(text, names.of(p), circle, p, processes)?;
    }
    Ok(())
}

/// What each process knows of each after the weave of the job's scripts, where each event writes the
/// next reading of its least participant: for each process a line of `known`, its name, and for each
/// process in order the number that the latest event of it wrote that the process knows, or a hyphen
/// where it knows none. It is told by bounded labels alone (Mukund and Sohoni 1997). The job's scripts fit
/// its alphabet, as those of each job that is read do. Want of memory is the one free answer.
pub fn news_text(alloc: Global, job: &NewsJob) -> Result<Vec<u8>, OutOfMemory>
    requires { FitAlphabet job.now.job.lang.table.alphabet job.now.job.scripts }
    ensures { IfOk result (λ text. text.items ≡ news_text (data_of job.now.job) job.now.readings) }
{
    let alphabet = job.job.lang.alphabet();
    let processes = alphabet.processes();
    let woven = weave(alloc, alphabet, &job.job.scripts)?;
    let circle = circle_after(alloc, alphabet, &job.readings, woven.word().letters())?;
    let mut text = Vec::new(alloc);
    push_lines(&mut text, job.job.lang.names(), &circle, processes)?;
    Ok(text)
}
