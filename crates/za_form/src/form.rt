ghost use Rattle.std.specs.Prelude.{◌≡◌, ◌≤◌, MatchResult, length};
ghost use Rattle.za_text.specs.Words.{words_of};
ghost use Rattle.za_expression.specs.Limits.{most_signs};
ghost use Rattle.za_form.specs.Expressions.{IsExpressionOf, IsFormFault, IsExpression};
ghost use Rattle.za_expression.specs.Grammar.{IsForm};
ghost use Rattle.za_form.specs.Private.Trees.{form};

use crate::fault::FormFault;
use crate::reading::tree_of;
use crate::text::{is_full, signs_of};
use crate::tree::FormTree;
use std::alloc::Global;
use std::marker::Model;
use za_alpha::Alphabet;
use za_expression::Sign;

/// An expression: signs that are a form. Contracts see the list of the signs, which are one form alone.
#[derive(Debug, Drop)]
pub struct Form {
    signs: Vec<Sign>,
    tree: FormTree,
}

impl Model for Form {
    ghost use Rattle.std.specs.Prelude.{List};
    ghost use Rattle.za_expression.specs.declared.sign.Sign.{Sign};
    ghost use Rattle.za_form.specs.Private.Inside.{IsExpressionInside};

    ghost Value = { List Sign };

    ghost view = { λ inside. inside.signs.items };

    ghost invariant = { IsExpressionInside };
}

impl Form {
    /// The form that a text is, one line's (Kleene 1956, with intersection and complement): tokens with spaces
    /// or tabs between them, each a letter's name or one of `1`, `(`, `)`, `{`, `}`, `|`, `*`, `&` and `!`. A
    /// form is one or more unaries joined by `&`; a unary is `!` and a unary, or a form in braces, or one or
    /// more products joined by `|`; a product is one or more items, an item an atom and any number of `*`, and
    /// an atom a letter, or `1`, or such products in parentheses. `Full` comes exactly where the text has more
    /// than 64 tokens; else `NoSuchLetter` exactly where a token is neither a symbol nor a letter's name; else
    /// `NotAForm` exactly where the tokens aren't a form. Want of memory is the one free answer.
    pub fn parse(alloc: Global, alphabet: &Alphabet, text: &[u8]) -> Result<Form, FormFault>
        ensures { MatchResult result
            (λ signs. IsExpressionOf alphabet.now.letters (words_of text.now) signs)
            (λ fault. IsFormFault alphabet.now.letters (words_of text.now) fault) }
    {
        if is_full(text) {
            return Err(FormFault::Full);
        }
        let Some(signs) = signs_of(alloc, alphabet, text)? else {
            return Err(FormFault::NoSuchLetter);
        };
        match tree_of(alloc, signs.as_slice())? {
            Some(tree) => Ok(Form { signs, tree }),
            None => Err(FormFault::NotAForm),
        }
    }

    /// The signs in order.
    pub fn signs(&self) -> &[Sign]
        ensures value { result.now ≡ self.now }
        ensures whole { IsExpression self.now }
    {
        self.signs.as_slice()
    }

    /// The tree of the form.
    pub(crate) fn tree(&self) -> &FormTree
        ensures is { IsForm 1 self.now (form result.now) }
        ensures few { length self.now ≤ most_signs }
    {
        &self.tree
    }
}
