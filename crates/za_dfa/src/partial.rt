ghost use Rattle.std.specs.Prelude.{◌≡◌, ◌<◌, ◌≤◌, ℕ, Option, true, false, length, map, slice_set};
ghost use Rattle.std.specs.Prelude.{is_some, unwrap_or, IfOk, IfSome, MatchResult, Some};
ghost use Rattle.std.specs.List.{list_all};
ghost use Rattle.za_dfa.specs.Limits.{most_states};
ghost use Rattle.za_dfa.specs.Partials.{PartialDfa, blank, completion, entered, is_accepting};
ghost use Rattle.za_dfa.specs.Partials.{is_other, target_of, whole_of, IsPartial};
ghost use Rattle.za_dfa.specs.Private.Views.{table_with_cells, without_targets};

use crate::dfa::Dfa;
use crate::fault::TwoTargets;
use std::alloc::Global;
use std::marker::Model;
use za_alpha::{Alphabet, Letter, OutOfMemory};

/// A deterministic automaton over an alphabet, as a partial table: each letter leads from each state
/// to a state or nowhere. It has 1 to 128 states, numbered from 0.
#[derive(Debug, Drop)]
pub struct Partial {
    alphabet: Alphabet,
    states: usize,
    start: u8,
    accepting: Vec<bool>,
    targets: Vec<Option<u8>>,
}

impl Model for Partial {
    ghost use Rattle.za_dfa.specs.Partials.{PartialDfa};
    ghost use Rattle.za_dfa.specs.Private.Views.{partial_of_inside, IsPartialInside};

    ghost Value = { PartialDfa };

    ghost view = { partial_of_inside };

    ghost invariant = { IsPartialInside };
}

/// Whether each cell has a target.
fn are_whole(cells: &[Option<u8>]) -> bool
    ensures { result ≡ list_all is_some cells.now }
{
    cells.iter().all(|cell| cell.is_some())
}

/// The cells' targets, and `added` where there is none.
fn targets_of(alloc: Global, cells: &[Option<u8>], added: u8) -> Result<Vec<u8>, OutOfMemory>
    ensures { IfOk result (λ targets. targets.items ≡ map (λ cell. unwrap_or cell added) cells.now) }
{
    let mut targets = Vec::new(alloc);
    for cell in cells {
        targets.push(cell.unwrap_or(added))?;
    }
    Ok(targets)
}

/// Each target, as that of a cell.
fn whole_cells(alloc: Global, targets: &[u8]) -> Result<Vec<Option<u8>>, OutOfMemory>
    ensures { IfOk result (λ cells. cells.items ≡ map (λ (target : ℕ). Some target) targets.now) }
{
    let mut cells = Vec::new(alloc);
    for target in targets {
        cells.push(Some(*target))?;
    }
    Ok(cells)
}

/// The completed table of these parts.
fn completion_of(
    alphabet: Alphabet,
    start: u8,
    mut accepting: Vec<bool>,
    cells: &[Option<u8>],
) -> Result<Dfa, OutOfMemory>
    requires { IsPartial (table_with_cells alphabet start accepting.items cells.now) }
    ensures { let table = table_with_cells alphabet start accepting.items cells.now in
        IfOk result (λ dfa. dfa ≡ completion table) }
{
    let alloc = *accepting.allocator();
    let added = accepting.len() as u8;
    let mut targets = targets_of(alloc, cells, added)?;
    if are_whole(cells) {
        return Ok(Dfa::of_table(alphabet, start, accepting, targets));
    }
    accepting.push(false)?;
    let added_targets = vec![in alloc; added; alphabet.letters()]?;
    targets.extend_from_slice(added_targets.as_slice())?;
    Ok(Dfa::of_table(alphabet, start, accepting, targets))
}

impl Partial {
    /// The table without targets that starts at `start`. There is a state for each entry of
    /// `accepting`, which says whether the state accepts.
    pub(crate) fn without_targets(
        alloc: Global,
        alphabet: Alphabet,
        start: u8,
        accepting: Vec<bool>,
    ) -> Result<Partial, OutOfMemory>
        requires few { length accepting.items ≤ most_states }
        requires starts { start < length accepting.items }
        ensures value { IfOk result (λ partial. partial ≡ without_targets alphabet start accepting.items) }
        ensures whole { IfOk result (λ partial. IsPartial partial) }
    {
        let states = accepting.len();
        let targets = vec![in alloc; None; states * alphabet.letters()]?;
        Ok(Partial {
            alphabet,
            states,
            start,
            accepting,
            targets,
        })
    }

    /// The table of `states` states without targets and accepting states, which starts at state 0.
    pub fn blank(alloc: Global, alphabet: Alphabet, states: usize) -> Result<Partial, OutOfMemory>
        requires some { 1 ≤ states }
        requires few { states ≤ most_states }
        ensures value { IfOk result (λ partial. partial ≡ blank alphabet states) }
        ensures whole { IfOk result (λ partial. IsPartial partial) }
    {
        let accepting = vec![in alloc; false; states]?;
        Partial::without_targets(alloc, alphabet, 0, accepting)
    }

    /// The partial table that a complete one is.
    pub fn of(alloc: Global, dfa: &Dfa) -> Result<Partial, OutOfMemory>
        requires { dfa.now.states ≤ most_states }
        ensures value { IfOk result (λ partial. partial ≡ whole_of dfa.now) }
        ensures whole { IfOk result (λ partial. IsPartial partial) }
    {
        let alphabet = dfa.alphabet().copy()?;
        let accepting = Vec::from_slice(alloc, dfa.accepting_states())?;
        let targets = whole_cells(alloc, dfa.targets())?;
        Ok(Partial {
            alphabet,
            states: dfa.states(),
            start: dfa.start(),
            accepting,
            targets,
        })
    }

    /// The alphabet.
    pub fn alphabet(&self) -> &Alphabet
        ensures { result.now ≡ self.now.alphabet }
    {
        &self.alphabet
    }

    /// How many states there are, 1 to 128.
    pub fn states(&self) -> usize
        ensures value { result ≡ self.now.states }
        ensures whole { IsPartial self.now }
    {
        self.states
    }

    /// The start state.
    pub fn start(&self) -> u8
        ensures value { result ≡ self.now.start }
        ensures within { result < self.now.states }
    {
        self.start
    }

    /// Whether state `q` accepts.
    pub fn accepting(&self, q: u8) -> bool
        requires { q < self.now.states }
        ensures { result ≡ is_accepting self.now q }
    {
        self.accepting[q as usize]
    }

    /// Where a letter leads from state `q`, if it leads anywhere.
    pub fn target(&self, q: u8, a: Letter) -> Option<u8>
        requires state { q < self.now.states }
        requires letter { a.0 < length self.now.alphabet.letters }
        ensures value { result ≡ target_of self.now q a.0 }
        ensures within { IfSome result (λ r. r < self.now.states) }
    {
        self.targets[q as usize * self.alphabet.letters() + a.0 as usize]
    }

    /// Lets the words start at state `q`.
    pub fn start_at(&mut self, q: u8)
        requires { q < self.old.states }
        ensures value { self.new ≡ record self.old { start = q } }
        ensures whole { IsPartial self.new }
    {
        self.start = q;
    }

    /// Lets state `q` accept.
    pub fn accept(&mut self, q: u8)
        requires { q < self.old.states }
        ensures value { self.new ≡ record self.old { accepting = slice_set self.old.accepting q true } }
        ensures whole { IsPartial self.new }
    {
        self.accepting[q as usize] = true;
    }

    /// Lets a letter lead from state `q` to state `r`. It is refused exactly where the letter leads
    /// to another state already, and the table then stays as it was.
    pub fn enter(&mut self, q: u8, a: Letter, r: u8) -> Result<(), TwoTargets>
        requires state { q < self.old.states }
        requires letter { a.0 < length self.old.alphabet.letters }
        requires target { r < self.old.states }
        ensures answer { MatchResult result
            (λ _. (is_other (target_of self.old q a.0) r ≡ false) × (self.new ≡ entered self.old q a.0 r))
            (λ _. (is_other (target_of self.old q a.0) r ≡ true) × (self.new ≡ self.old)) }
        ensures whole { IsPartial self.new }
    {
        let cell = q as usize * self.alphabet.letters() + a.0 as usize;
        match self.targets[cell] {
            Some(there) if there != r => Err(TwoTargets),
            _ => {
                self.targets[cell] = Some(r);
                Ok(())
            }
        }
    }

    /// The completed table: where a letter leads nowhere, it leads to one added state, which rejects
    /// and leads to itself.
    pub fn complete(self) -> Result<Dfa, OutOfMemory>
        ensures { IfOk result (λ dfa. dfa ≡ completion self) }
    {
        completion_of(
            self.alphabet,
            self.start,
            self.accepting,
            self.targets.as_slice(),
        )
    }

    /// The completed table, as by `complete`, of a table that stays.
    pub fn completed(&self) -> Result<Dfa, OutOfMemory>
        ensures { IfOk result (λ dfa. dfa ≡ completion self.now) }
    {
        let alphabet = self.alphabet.copy()?;
        let accepting = Vec::from_slice(*self.accepting.allocator(), self.accepting.as_slice())?;
        completion_of(alphabet, self.start, accepting, self.targets.as_slice())
    }
}
