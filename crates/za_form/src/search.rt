//! Finding the values that words have, breadth first, so that each is found by its shortlex-least word. No word
//! is kept.

ghost use Rattle.std.specs.Prelude.{◌≡◌, ◌<◌, ◌≤◌, ◌+◌, ◌∷◌, [], IfOk, OnOk, MatchOption, MatchResult};
ghost use Rattle.std.specs.Prelude.{length, slice_index};
ghost use Rattle.za_dfa.specs.Limits.{most_states};
ghost use Rattle.za_form.specs.Automata.{IsWide};
ghost use Rattle.za_expression.specs.Grammar.{IsForm};
ghost use Rattle.za_form.specs.Private.Numbers.{form_of, positions_of};
ghost use Rattle.za_form.specs.Private.Sets.{AreMasks, AreRows};
ghost use Rattle.za_form.specs.Private.Searching.{EntersTarget, HasSearched, HasSearchedAll};
ghost use Rattle.za_form.specs.Private.Searching.{IsNew, IsPlaced, IsLeftOut};

use crate::fault::Wide;
use crate::form::Form;
use crate::steps::{MOST_ROWS, after, rows_of};
use std::alloc::{AllocError, Global};
use za_dfa::MOST_STATES;

/// The values that are found so far, and the places of those that the letters lead to.
#[derive(Drop)]
pub(crate) struct Found {
    pub(crate) states: Vec<u128>,
    pub(crate) targets: Vec<u8>,
}

/// The place of a value.
fn place_of(states: &[u128], value: u128) -> Option<usize>
    ensures { MatchOption result
        (IsNew states.now value)
        (λ k. (k < length states.now) × (slice_index states.now k ≡ value)) }
{
    for (k, state) in states.iter().enumerate() {
        if *state == value {
            return Some(k);
        }
    }
    None
}

impl Found {
    /// The value of the empty word.
    fn start(alloc: Global) -> Result<Found, AllocError>
        ensures states { IfOk result (λ found. found.states.items ≡ 1 ∷ []) }
        ensures targets { IfOk result (λ found. found.targets.items ≡ []) }
    {
        let mut states = Vec::new(alloc);
        states.push(1)?;
        Ok(Found {
            states,
            targets: Vec::new(alloc),
        })
    }

    /// The place of a value, which is added where it is new and has room.
    fn place(&mut self, value: u128) -> Result<u8, Wide>
        requires { length self.old.states.items ≤ most_states }
        ensures placed { MatchResult result
            (λ k. IsPlaced self.old.states.items self.new.states.items value k)
            (λ e. e ≡ Wide.States → IsLeftOut self.old.states.items value) }
        ensures targets { OnOk result (self.new.targets.items ≡ self.old.targets.items) }
    {
        match place_of(&self.states, value) {
            Some(k) => Ok(k as u8),
            None => {
                let k = self.states.len();
                if k == MOST_STATES {
                    return Err(Wide::States);
                }
                self.states.push(value)?;
                Ok(k as u8)
            }
        }
    }

    /// Enters where one letter more leads.
    fn enter(&mut self, value: u128) -> Result<(), Wide>
        requires { length self.old.states.items ≤ most_states }
        ensures { MatchResult result
            (λ _. EntersTarget self.old self.new value)
            (λ e. e ≡ Wide.States → IsLeftOut self.old.states.items value) }
    {
        let k = self.place(value)?;
        self.targets.push(k)?;
        Ok(())
    }

    /// Finds where each letter leads from the value at a place.
    fn visit(
        &mut self,
        form: &Form,
        rows: &[u128; MOST_ROWS],
        masks: &[u128],
        at: usize,
    ) -> Result<(), Wide>
        requires form { IsForm 1 form.now (form_of form.now) }
        requires rows { AreRows form.now rows.now }
        requires masks { AreMasks form.now (length masks.now) masks.now }
        requires place { at < length self.old.states.items }
        requires found { HasSearched (positions_of form.now (length masks.now)) at 0
            self.old.states.items self.old.targets.items }
        ensures { MatchResult result
            (λ _. (at < length self.new.states.items)
            × HasSearched (positions_of form.now (length masks.now)) (at + 1) 0
            self.new.states.items self.new.targets.items)
            (λ e. IsWide form.now (length masks.now) e) }
    {
        let all = after(form, rows, self.states[at]);
        for a in 0..masks.len() {
            self.enter(masks[a] & all)?;
        }
        Ok(())
    }
}

/// The values of all words, in shortlex order of their least words, and their targets.
pub(crate) fn explore(alloc: Global, form: &Form, masks: &[u128]) -> Result<Found, Wide>
    requires { AreMasks form.now (length masks.now) masks.now }
    ensures { MatchResult result
        (λ found. IsForm 1 form.now (form_of form.now)
        × HasSearchedAll (positions_of form.now (length masks.now)) found.states.items found.targets.items)
        (λ e. IsWide form.now (length masks.now) e) }
{
    let rows = rows_of(form);
    let mut found = Found::start(alloc)?;
    let mut at = 0;
    while at < found.states.len() {
        found.visit(form, &rows, masks, at)?;
        at += 1;
    }
    Ok(found)
}
