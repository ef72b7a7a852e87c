//! The `expr` line: the job over the letters before it that has the table of its expression.

ghost use Rattle.std.specs.Prelude.{◌≡◌, ◌<◌, IfOk, MatchResult, length};
ghost use Rattle.za_text.specs.Words.{words_of};
ghost use Rattle.za_form.specs.Automata.{IsValueDfa};
ghost use Rattle.za_form.specs.Expressions.{IsExpressionOf};
ghost use Rattle.za_lang.specs.Answers.{data_of};
ghost use Rattle.za_lang.specs.Jobs.{IsJob};
ghost use Rattle.za_lang.specs.Letters.{AreNamedLetters};
ghost use Rattle.za_lang.specs.Reading.{naming_of};
ghost use Rattle.za_lang.specs.declared.version.Version.TheVariants.{Two};
ghost use Rattle.za_expr.specs.Expressions.{HasExpressionFault, HasTokensFault};
ghost use Rattle.za_expr.specs.Private.Keeping.{form_refusal, wide_refusal, IsBegunJob, IsExpressionTable, IsWrongBy};

use std::alloc::Global;
use za_alpha::{Alphabet, Letters};
use za_dfa::Dfa;
use za_form::{Form, FormFault, Wide, dfa_of};
use za_lang::{Job, Lang, Refusal, Words};
use za_script::Scripts;
use za_text::{Kind, Names};

/// The refusal of a text that is no expression.
fn form_refusal(fault: FormFault) -> Refusal
    ensures { result ≡ form_refusal fault }
{
    match fault {
        FormFault::Full => Refusal::Wrong(Kind::ExprFull),
        FormFault::NoSuchLetter => Refusal::Wrong(Kind::NoSuchLetter),
        FormFault::NotAForm => Refusal::Wrong(Kind::BadExpr),
        FormFault::OutOfMemory => Refusal::OutOfMemory,
    }
}

/// The refusal of an expression that has no table.
fn wide_refusal(fault: Wide) -> Refusal
    ensures { result ≡ wide_refusal fault }
{
    match fault {
        Wide::States => Refusal::Wrong(Kind::ExprStates),
        Wide::OutOfMemory => Refusal::OutOfMemory,
    }
}

/// The table of the expression that a text is.
fn table_of(alloc: Global, alphabet: Alphabet, text: &[u8]) -> Result<Dfa, Refusal>
    ensures { MatchResult result
        (IsExpressionTable alphabet (words_of text.now))
        (IsWrongBy (HasTokensFault alphabet.letters (words_of text.now))) }
{
    let form = match Form::parse(alloc, &alphabet, text) {
        Ok(form) => form,
        Err(fault) => return Err(form_refusal(fault)),
    };
    match dfa_of(alloc, alphabet, &form) {
        Ok(dfa) => Ok(dfa),
        Err(fault) => Err(wide_refusal(fault)),
    }
}

/// What an `expr` line says, by its words after the first: the job over these letters that has the table of the
/// expression and no script letters yet.
pub(crate) fn start_job(
    letters: Letters,
    alloc: Global,
    names: Names,
    mut words: Words,
) -> Result<Job, Refusal>
    requires named { AreNamedLetters (naming_of Two names) letters }
    requires some { 0 < length letters.letters }
    ensures whole { IfOk result (λ job. IsJob (data_of job)) }
    ensures said { MatchResult result
        (λ job. IsBegunJob (naming_of Two names) letters words.entry (data_of job))
        (IsWrongBy (HasExpressionFault letters.letters words.entry)) }
{
    let text = words.rest();
    if words.next().is_none() {
        return Err(Refusal::Wrong(Kind::WordCount));
    }
    let dfa = table_of(alloc, letters.into_alphabet(), text)?;
    let scripts = Scripts::empty(alloc, dfa.alphabet().processes())?;
    let lang = Lang::named(alloc, &dfa, names)?;
    Ok(Job { lang, scripts })
}
