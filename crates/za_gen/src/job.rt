//! The generated job, and its text.

ghost use Rattle.std.specs.Prelude.{◌≡◌, ◌<◌, ◌≤◌, None, IfOk, length};
ghost use Rattle.za_alpha.specs.Words.{IsWord};
ghost use Rattle.za_dfa.specs.Automata.{walk};
ghost use Rattle.za_script.specs.ScriptLists.{FitAlphabet};
ghost use Rattle.za_lang.specs.Answers.{data_of};
ghost use Rattle.za_lang.specs.Documents as document;
ghost use Rattle.za_gen.specs.Limits.{letters_drawn};
ghost use Rattle.za_gen.specs.Generated.{generated_job, generated_text, job_by, next_state};

use crate::draw::drawn;
use crate::scripts::scripts_of;
use crate::table::{accepting, alphabet, next_state, targets};
use std::alloc::Global;
use za_alpha::{OutOfMemory, Word};
use za_dfa::Dfa;
use za_lang::{Job, Lang};
use za_print::print_job;

/// How many letters are drawn.
pub const LETTERS_DRAWN: usize = 20000;

/// The state that a word reaches from state 0.
fn reached(word: &Word) -> u8
    requires { IsWord 8 word.now }
    ensures value { result ≡ walk next_state 0 word.now }
    ensures small { result < 8 }
{
    let letters = word.letters();
    let mut q = 0;
    for a in letters {
        q = next_state(q, a.0);
    }
    q
}

/// The job of a word.
fn job_by(alloc: Global, word: &Word) -> Result<Job, OutOfMemory>
    requires word { IsWord 8 word.now }
    requires few { length word.now ≤ letters_drawn }
    ensures value { IfOk result (λ job. data_of job ≡ job_by word.now) }
    ensures fit { IfOk result (λ job. FitAlphabet job.lang.table.alphabet job.scripts) }
{
    let alphabet = alphabet(alloc)?;
    let scripts = scripts_of(alloc, &alphabet, word)?;
    let accepting = accepting(alloc, reached(word))?;
    let targets = targets(alloc)?;
    let dfa = Dfa::of_table(alphabet, 0, accepting, targets);
    let lang = Lang::of(alloc, &dfa)?;
    Ok(Job { lang, scripts })
}

/// The text of the job that is generated from a number, in the printed form of jobs. It is read as this
/// job. Want of memory is the one free answer, and no other fault is answered so.
pub fn job_of(alloc: Global, number: u32) -> Result<Vec<u8>, OutOfMemory>
    ensures text { IfOk result (λ text. text.items ≡ generated_text number) }
    ensures read { IfOk result
        (λ text. (document.fault_of text.items ≡ None) × (document.job_of text.items ≡ generated_job number)) }
{
    let word = drawn(alloc, number, LETTERS_DRAWN)?;
    let job = job_by(alloc, &word)?;
    print_job(alloc, &job)
}
