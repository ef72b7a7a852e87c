//! First, last and following occurrences of trees, as sets of places: bit `p` stands for place `p`, and bit 0
//! for the start.

ghost use Rattle.std.specs.Prelude.{◌≡◌, ◌≤◌, ◌<◌, ◌^◌, ◌==◌, ◌&&◌, ◌||◌, ℕ, suc, length};
ghost use Rattle.za_expression.specs.Following.{
  nullable as may_be_empty,
  is_first,
  is_last,
  follows,
  ends as may_end,
  goes,
  accepts as accepts_value,
};
ghost use Rattle.za_form.specs.Private.Trees.{tree, form};
ghost use Rattle.za_form.specs.Private.Numbers.{has_bit, places_of};
ghost use Rattle.za_form.specs.Private.Sets.{IsSet, AddsSteps, IsBelow, IsFormBelow};

use crate::tree::{FormTree, PlainTree};

fn nullable(e: &PlainTree) -> bool
    ensures { result ≡ may_be_empty (tree e.now) }
{
    match e {
        PlainTree::One => true,
        PlainTree::Occurrence(_) => false,
        PlainTree::Sequence(a, b) => nullable(a) && nullable(b),
        PlainTree::Or(a, b) => nullable(a) || nullable(b),
        PlainTree::Star(_) => true,
    }
}

pub(crate) fn one_place(p: u8) -> u128
    requires { p < 128 }
    ensures { IsSet result (λ q. p == q) }
{
    1 << p
}

pub(crate) fn either(a: u128, b: u128) -> u128
    ensures { IsSet result (λ q. has_bit a q || has_bit b q) }
{
    a | b
}

/// The occurrences that come first.
fn first(e: &PlainTree) -> u128
    requires { IsBelow 128 (tree e.now) }
    ensures { IsSet result (λ q. is_first (tree e.now) q) }
{
    match e {
        PlainTree::One => 0,
        PlainTree::Occurrence(p) => one_place(*p),
        PlainTree::Sequence(a, b) => {
            if nullable(a) {
                either(first(a), first(b))
            } else {
                first(a)
            }
        }
        PlainTree::Or(a, b) => either(first(a), first(b)),
        PlainTree::Star(a) => first(a),
    }
}

/// The occurrences that come last.
fn last(e: &PlainTree) -> u128
    requires { IsBelow 128 (tree e.now) }
    ensures { IsSet result (λ q. is_last (tree e.now) q) }
{
    match e {
        PlainTree::One => 0,
        PlainTree::Occurrence(p) => one_place(*p),
        PlainTree::Sequence(a, b) => {
            if nullable(b) {
                either(last(b), last(a))
            } else {
                last(b)
            }
        }
        PlainTree::Or(a, b) => either(last(a), last(b)),
        PlainTree::Star(a) => last(a),
    }
}

/// The places that a word may end at.
fn ends(e: &PlainTree) -> u128
    requires { IsBelow 128 (tree e.now) }
    ensures { IsSet result (λ p. may_end (tree e.now) p) }
{
    if nullable(e) {
        either(last(e), 1)
    } else {
        last(e)
    }
}

/// Lets each place of `to` stand after each of `from`.
fn join(rows: &mut [u128], from: u128, to: u128)
    requires { length rows.old ≤ 128 }
    ensures { AddsSteps rows.old rows.new (λ p q. has_bit from p && has_bit to q) }
{
    for p in 0..rows.len() {
        if (from >> p) & 1 == 1 {
            rows[p] |= to;
        }
    }
}

/// Lets the following occurrences of a plain expression stand after each other.
fn add_follows(rows: &mut [u128], e: &PlainTree)
    requires size { length rows.old ≤ 128 }
    requires within { IsBelow 128 (tree e.now) }
    ensures { AddsSteps rows.old rows.new (follows (tree e.now)) }
{
    match e {
        PlainTree::One => {}
        PlainTree::Occurrence(_) => {}
        PlainTree::Sequence(a, b) => {
            add_follows(rows, a);
            add_follows(rows, b);
            join(rows, last(a), first(b));
        }
        PlainTree::Or(a, b) => {
            add_follows(rows, a);
            add_follows(rows, b);
        }
        PlainTree::Star(a) => {
            add_follows(rows, a);
            join(rows, last(a), first(a));
        }
    }
}

/// Lets the places of a form stand after each other, and after the start.
pub(crate) fn add_form(rows: &mut [u128], f: &FormTree)
    requires some { 0 < length rows.old }
    requires size { length rows.old ≤ 128 }
    requires within { IsFormBelow 128 (form f.now) }
    ensures { AddsSteps rows.old rows.new (goes (form f.now)) }
{
    match f {
        FormTree::Part(e) => {
            add_follows(rows, e);
            rows[0] = either(rows[0], first(e));
        }
        FormTree::And(a, b) => {
            add_form(rows, a);
            add_form(rows, b);
        }
        FormTree::Not(a) => add_form(rows, a),
    }
}

/// Whether words of this value are in the form's meaning.
pub(crate) fn accepts(f: &FormTree, m: u128) -> bool
    requires { IsFormBelow 128 (form f.now) }
    ensures { (n : ℕ) → m < 2 ^ suc n → result ≡ accepts_value (form f.now) (places_of n m) }
{
    match f {
        FormTree::Part(e) => ends(e) & m != 0,
        FormTree::And(a, b) => accepts(a, m) && accepts(b, m),
        FormTree::Not(a) => !accepts(a, m),
    }
}
