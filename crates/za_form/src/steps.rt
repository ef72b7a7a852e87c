//! The steps between values: the places that may stand next, and the letters' places.

ghost use Rattle.std.specs.Prelude.{◌≡◌, ◌<◌, ◌≤◌, ◌==◌, IfOk, length};
ghost use Rattle.za_alpha.specs.Limits.{most_letters};
ghost use Rattle.za_form.specs.Expressions.{named_letter};
ghost use Rattle.za_expression.specs.Grammar.{IsForm};
ghost use Rattle.za_form.specs.Private.Numbers.{form_of};
ghost use Rattle.za_form.specs.Private.Sets.{AreRows, IsAfter, IsSet, AreMasks, stands_at};

use crate::form::Form;
use crate::places::{add_form, either, one_place};
use std::alloc::{AllocError, Global};
use za_expression::Sign;

/// The start, and the most places.
pub(crate) const MOST_ROWS: usize = 65;

/// For the start and for each place, the places that may stand next.
pub(crate) fn rows_of(form: &Form) -> [u128; MOST_ROWS]
    ensures rows { AreRows form.now result }
    ensures form { IsForm 1 form.now (form_of form.now) }
{
    let mut rows = [0; MOST_ROWS];
    add_form(&mut rows, form.tree());
    rows
}

/// The places that may stand next after those of `m`.
pub(crate) fn after(form: &Form, rows: &[u128; MOST_ROWS], m: u128) -> u128
    requires { AreRows form.now rows.now }
    ensures { IsAfter form.now m result }
{
    let mut all = 0u128;
    for p in 0..form.signs().len() + 1 {
        if (m >> p) & 1 == 1 {
            all |= rows[p];
        }
    }
    all
}

/// Whether the sign is the letter `a`'s name.
fn is_name_of(sign: Sign, a: u8) -> bool
    requires { a < most_letters }
    ensures { result ≡ (named_letter sign == a) }
{
    match sign {
        Sign::Name(b) => b == a,
        Sign::Empty => false,
        Sign::Open => false,
        Sign::Close => false,
        Sign::Begin => false,
        Sign::End => false,
        Sign::Bar => false,
        Sign::Times => false,
        Sign::Ampersand => false,
        Sign::Bang => false,
    }
}

/// The places of a letter.
fn mask_of(form: &Form, a: u8) -> u128
    requires { a < most_letters }
    ensures { IsSet result (stands_at form.now a) }
{
    let mut mask = 0u128;
    for (i, sign) in form.signs().iter().enumerate() {
        if is_name_of(*sign, a) {
            mask = either(mask, one_place(i as u8 + 1));
        }
    }
    mask
}

/// The places of each letter.
pub(crate) fn masks_of(alloc: Global, form: &Form, letters: usize) -> Result<Vec<u128>, AllocError>
    requires { letters ≤ most_letters }
    ensures { IfOk result (λ masks. AreMasks form.now letters masks.items) }
{
    let mut masks = Vec::with_capacity(alloc, letters)?;
    for a in 0..letters as u8 {
        masks.push(mask_of(form, a))?;
    }
    Ok(masks)
}
