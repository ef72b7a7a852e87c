//! Callers of za_lang and za_print.

ghost use Rattle.std.specs.Prelude.{◌≡◌, ◌<◌, ◌≤◌, ◌∷◌, [], None, length};
ghost use Rattle.std.specs.Prelude.{IsTrue, IfOk, IfErr, MatchOption, MatchResult};
ghost use Rattle.za_text.specs.Names.{is_name};
ghost use Rattle.za_alpha.specs.Alphabet.{loc_of};
ghost use Rattle.za_dfa.specs.Diamonds.{BreaksDiamond};
ghost use Rattle.za_dfa.specs.Partials.{completion, whole_of};
ghost use Rattle.za_dfa.specs.Tables.{automaton_of};
ghost use Rattle.za_text.specs.ProcessNames.{process_named};
ghost use Rattle.za_script.specs.Answer.{IsAnswer};
ghost use Rattle.za_script.specs.ScriptLists.{script_of};
ghost use Rattle.za_lang.specs.Answers.{IsRefused};
ghost use Rattle.za_lang.specs.Documents.{fault_of, job_of};
ghost use Rattle.za_print.specs.Printed.{printed};

use crate::scripts::answer;
use std::alloc::Global;
use za_alpha::OutOfMemory;
use za_dfa::{Closed, Dfa};
use za_lang::{JobFault, Lang, read_job};
use za_print::print_job;
use za_script::Answer;
use za_text::{Names, is_name};

/// The printed form of a document: each document that says the same job has it, and it says this job
/// itself.
pub fn normal_form(alloc: Global, bytes: &[u8]) -> Result<Vec<u8>, JobFault>
    requires { length bytes.now < 4294967295 }
    ensures form { MatchResult result
        (λ text. (fault_of bytes.now ≡ None) × (text.items ≡ printed (job_of bytes.now)))
        (IsRefused bytes.now) }
    ensures same { IfOk result (λ text.
        (fault_of text.items ≡ None) × (job_of text.items ≡ job_of bytes.now)) }
{
    let job = read_job(alloc, bytes)?;
    match print_job(alloc, &job) {
        Ok(text) => Ok(text),
        Err(OutOfMemory) => Err(JobFault::OutOfMemory),
    }
}

/// The answer of a document's language to its scripts, and `None` exactly where its automaton, with
/// the missing rows completed, has two independent letters whose order decides the state.
pub fn document_answer(alloc: Global, bytes: &[u8]) -> Result<Option<Answer>, JobFault>
    requires { length bytes.now < 4294967295 }
    ensures answer { IfOk result (λ said. let d = completion (job_of bytes.now).lang in
        MatchOption said
        (BreaksDiamond (loc_of d.alphabet) (automaton_of d))
        (IsAnswer (loc_of d.alphabet) (automaton_of d) (script_of (job_of bytes.now).scripts))) }
    ensures refused { IfErr result (IsRefused bytes.now) }
{
    let job = read_job(alloc, bytes)?;
    let dfa = match job.lang.dfa() {
        Ok(dfa) => dfa,
        Err(OutOfMemory) => return Err(JobFault::OutOfMemory),
    };
    let closed = match Closed::new(dfa) {
        Ok(closed) => closed,
        Err(_) => return Ok(None),
    };
    match answer(alloc, &closed, &job.scripts) {
        Ok(answer) => Ok(Some(answer)),
        Err(OutOfMemory) => Err(JobFault::OutOfMemory),
    }
}

/// The language of a DFA of two processes under names of theirs, for documents of version 2, and `None`
/// exactly where one of the words is no name, or both are the same.
pub fn of_two(
    alloc: Global,
    dfa: &Dfa,
    first: &[u8],
    second: &[u8],
) -> Result<Option<Lang>, OutOfMemory>
    requires two { dfa.now.alphabet.processes ≡ 2 }
    requires states { dfa.now.states ≤ 128 }
    ensures { IfOk result (λ said. MatchOption said
        (IsTrue (is_name first.now) → IsTrue (is_name second.now) → first.now ≡ second.now)
        (λ lang. (lang.naming.names ≡ first.now ∷ second.now ∷ []) × (lang.table ≡ whole_of dfa.now))) }
{
    let mut names = Names::empty(alloc);
    if !is_name(first) || !is_name(second) {
        return Ok(None);
    }
    names.add(first)?;
    if names.find(second).is_some() {
        return Ok(None);
    }
    names.add(second)?;
    Ok(Some(Lang::named(alloc, dfa, names)?))
}

/// The process of a language that has the name, and `None` exactly where none has it.
pub fn process_of(lang: &Lang, word: &[u8]) -> Option<usize>
    ensures { result ≡ process_named lang.now.naming.names word.now }
{
    lang.names().find(word)
}
