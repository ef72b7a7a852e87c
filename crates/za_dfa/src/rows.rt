ghost use Rattle.std.specs.Prelude.{◌≡◌, ◌<◌, ◌++◌, ◌∷◌, [], All, length, unwrap_or, IfNone, MatchResult};
ghost use Rattle.za_dfa.specs.Partials.{IsPartial};
ghost use Rattle.za_dfa.specs.Rows.{dfa_fault, has_other, partial_of, row_fault, rows_fault};
ghost use Rattle.za_dfa.specs.Entered.{AreEntered};

use crate::fault::{DfaFault, TwoTargets};
use crate::partial::Partial;
use std::alloc::Global;
use za_alpha::{Alphabet, Letter};

/// The most states that rows are given for. A completed table may have one more.
pub const MOST_STATES: usize = 128;

/// A row of a table: a letter leads from one state to another. States count from 0.
#[derive(Clone, Copy, Debug, PartialEq, Eq)]
pub struct Row {
    pub from: u32,
    pub letter: Letter,
    pub to: u32,
}

/// Whether an earlier row has the row's state and letter and another target.
fn is_contradicted(before: &[Row], row: &Row) -> bool
    ensures { result ≡ has_other before.now row.now.from row.now.letter.0 row.now.to }
{
    before.iter().any(|earlier| earlier.from == row.from
        && earlier.letter.0 == row.letter.0
        && earlier.to != row.to)
}

/// The first test of a row that fails, after the rows before it.
#[tactic(auto, unfolding(crate::specs::Rows::row_fault))]
fn fault_of_row(states: u32, before: &[Row], row: &Row) -> Option<DfaFault>
    ensures { result ≡ row_fault states before.now row.now }
{
    let at = before.len();
    if !(row.from < states && row.to < states) {
        return Some(DfaFault::NoSuchState { at });
    }
    if is_contradicted(before, row) {
        return Some(DfaFault::TwoTargets {
            at,
            state: row.from,
            letter: row.letter,
        });
    }
    None
}

/// The fault of the first wrong row, found without memory: each row is compared with all before it.
fn fault_of_rows(states: u32, rows: &[Row]) -> Option<DfaFault>
    ensures { result ≡ rows_fault states [] rows.now }
{
    for (at, row) in rows.iter().enumerate() {
        if let Some(fault) = fault_of_row(states, &rows[..at], row) {
            return Some(fault);
        }
    }
    None
}

/// Enters the target of a row, after the rows before it. A wrong row enters nothing.
#[tactic(auto, unfolding(crate::specs::Rows::row_fault))]
fn enter(partial: &mut Partial, before: &[Row], row: &Row) -> Option<DfaFault>
    requires whole { IsPartial partial.old }
    requires entered { AreEntered partial.old before.now }
    requires letter { row.now.letter.0 < length partial.old.alphabet.letters }
    ensures fault { result ≡ row_fault partial.old.states before.now row.now }
    ensures whole { IsPartial partial.new }
    ensures same { partial.new ≡ record partial.old { targets = partial.new.targets } }
    ensures entered { IfNone result (AreEntered partial.new (before.now ++ row.now ∷ [])) }
{
    let at = before.len();
    let states = partial.states() as u32;
    if !(row.from < states && row.to < states) {
        return Some(DfaFault::NoSuchState { at });
    }
    match partial.enter(row.from as u8, row.letter, row.to as u8) {
        Ok(()) => None,
        Err(TwoTargets) => Some(DfaFault::TwoTargets {
            at,
            state: row.from,
            letter: row.letter,
        }),
    }
}

/// Enters the targets of all rows, up to the first wrong one.
fn enter_all(partial: &mut Partial, rows: &[Row]) -> Option<DfaFault>
    requires whole { IsPartial partial.old }
    requires entered { AreEntered partial.old [] }
    requires known_letters { All (λ (row : Row). row.letter.0 < length partial.old.alphabet.letters) rows.now }
    ensures fault { result ≡ rows_fault partial.old.states [] rows.now }
    ensures whole { IsPartial partial.new }
    ensures same { partial.new ≡ record partial.old { targets = partial.new.targets } }
    ensures entered { IfNone result (AreEntered partial.new rows.now) }
{
    for (at, row) in rows.iter().enumerate() {
        if let Some(fault) = enter(partial, &rows[..at], row) {
            return Some(fault);
        }
    }
    None
}

/// The partial table of rows. The first fault is named, also where memory is refused.
pub(crate) fn partial_of(
    alloc: Global,
    alphabet: Alphabet,
    states: u32,
    start: u32,
    accepting: Vec<bool>,
    rows: &[Row],
) -> Result<Partial, DfaFault>
    requires known_letters { All (λ (row : Row). row.letter.0 < length alphabet.letters) rows.now }
    requires each_state { length accepting.items ≡ states }
    ensures { MatchResult result
        (λ partial. (dfa_fault states start rows.now ≡ None)
        × (partial ≡ partial_of alphabet states start accepting.items rows.now))
        (λ e. e ≡ unwrap_or (dfa_fault states start rows.now) DfaFault.OutOfMemory) }
{
    if !(1 <= states && states as usize <= MOST_STATES) {
        return Err(DfaFault::StateCount);
    }
    if !(start < states) {
        return Err(DfaFault::NoSuchStart);
    }
    let Ok(mut partial) = Partial::without_targets(alloc, alphabet, start as u8, accepting) else {
        return Err(fault_of_rows(states, rows).unwrap_or(DfaFault::OutOfMemory));
    };
    match enter_all(&mut partial, rows) {
        Some(fault) => Err(fault),
        None => Ok(partial),
    }
}
