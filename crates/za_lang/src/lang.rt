ghost use Rattle.std.specs.Prelude.{◌≡◌, ◌<◌, ◌≤◌, All, IsTrue, length, slice_set, true, false};
ghost use Rattle.std.specs.Prelude.{IfOk, IfSome, MatchResult};
ghost use Rattle.za_text.specs.Names.{is_name};
ghost use Rattle.za_text.specs.ProcessNames.{numbered};
ghost use Rattle.za_dfa.specs.Partials.{blank, completion, entered, is_accepting};
ghost use Rattle.za_dfa.specs.Partials.{is_other, target_of, whole_of};
ghost use Rattle.za_lang.specs.declared.version.Version.TheVariants.{One, Two};
ghost use Rattle.za_lang.specs.Limits.{document_letters, document_processes, document_states};
ghost use Rattle.za_lang.specs.Namings.{version_number, IsLangData, IsNaming};

use crate::version::Version;
use std::alloc::Global;
use std::marker::Model;
use za_alpha::{Alphabet, Letter, OutOfMemory};
use za_dfa::{Dfa, Partial, TwoTargets};
use za_text::Names;

/// A regular language over a distributed alphabet, as a partial table within the limits of documents of
/// its version, with names of its processes. In version 1 there are at most 6 processes, 32 letters and
/// 32 states, and the name of a process is its number; in version 2 at most 10, 128 and 128.
#[derive(Debug, Drop)]
pub struct Lang {
    version: Version,
    names: Names,
    partial: Partial,
}

impl Model for Lang {
    ghost use Rattle.za_lang.specs.Namings.{LangData};
    ghost use Rattle.za_lang.specs.Private.Inside.{lang_of, IsLang};

    ghost Value = { LangData };

    ghost view = { lang_of };

    ghost invariant = { IsLang };
}

impl Lang {
    /// The language of version 1 of a DFA within its limits: with the DFA's alphabet, states, start state
    /// and accepting states, and with all its rows. Want of memory is the one free answer.
    pub fn of(alloc: Global, dfa: &Dfa) -> Result<Lang, OutOfMemory>
        requires processes { dfa.now.alphabet.processes ≤ document_processes One }
        requires letters { length dfa.now.alphabet.letters ≤ document_letters One }
        requires states { dfa.now.states ≤ document_states One }
        ensures { IfOk result (λ lang. lang ≡ record {
          naming = record { version = One; names = numbered dfa.now.alphabet.processes };
          table = whole_of dfa.now;
        }) }
    {
        let names = Names::numbers(alloc, dfa.alphabet().processes())?;
        let partial = Partial::of(alloc, dfa)?;
        Ok(Lang {
            version: Version::One,
            names,
            partial,
        })
    }

    /// The language of version 2 of a DFA of at most 128 states, with these names of its processes: with
    /// the DFA's alphabet, states, start state and accepting states, and with all its rows. There are as
    /// many names as processes, and each is a name of 1 to 32 letters, digits and underscores, the first
    /// no digit. Want of memory is the one free answer.
    pub fn named(alloc: Global, dfa: &Dfa, names: Names) -> Result<Lang, OutOfMemory>
        requires size { length names ≡ dfa.now.alphabet.processes }
        requires names { All (λ name. IsTrue (is_name name)) names }
        requires states { dfa.now.states ≤ document_states Two }
        ensures value { IfOk result (λ lang. lang ≡ record {
          naming = record { version = Two; names = names };
          table = whole_of dfa.now;
        }) }
        ensures whole { IfOk result IsLangData }
    {
        let partial = Partial::of(alloc, dfa)?;
        Ok(Lang {
            version: Version::Two,
            names,
            partial,
        })
    }

    /// The version of the documents that say the language: 1 or 2.
    pub fn version(&self) -> u8
        ensures { result ≡ version_number self.now.naming.version }
    {
        match self.version {
            Version::One => 1,
            Version::Two => 2,
        }
    }

    /// The names of the processes: in version 1 the name of process `p` is the decimal number `p`.
    pub fn names(&self) -> &Names
        ensures value { result.now ≡ self.now.naming.names }
        ensures whole { IsNaming self.now.naming self.now.table.alphabet.processes }
    {
        &self.names
    }

    /// The completed DFA: where a state and a letter lead nowhere, they lead to one added rejecting
    /// state, which leads to itself.
    pub fn dfa(&self) -> Result<Dfa, OutOfMemory>
        ensures { IfOk result (λ dfa. dfa ≡ completion self.now.table) }
    {
        self.partial.completed()
    }

    /// The alphabet.
    pub fn alphabet(&self) -> &Alphabet
        ensures { result.now ≡ self.now.table.alphabet }
    {
        self.partial.alphabet()
    }

    /// How many states there are: 1 to 32 in version 1, and 1 to 128 in version 2.
    pub fn states(&self) -> usize
        ensures value { result ≡ self.now.table.states }
        ensures whole { IsLangData self.now }
    {
        self.partial.states()
    }

    /// The start state.
    pub fn start(&self) -> u8
        ensures value { result ≡ self.now.table.start }
        ensures within { result < self.now.table.states }
    {
        self.partial.start()
    }

    /// Whether state `q` accepts.
    pub fn accepting(&self, q: u8) -> bool
        requires { q < self.now.table.states }
        ensures { result ≡ is_accepting self.now.table q }
    {
        self.partial.accepting(q)
    }

    /// Where a letter leads from state `q`, if it leads anywhere.
    pub fn target(&self, q: u8, a: Letter) -> Option<u8>
        requires state { q < self.now.table.states }
        requires letter { a.0 < length self.now.table.alphabet.letters }
        ensures value { result ≡ target_of self.now.table q a.0 }
        ensures within { IfSome result (λ r. r < self.now.table.states) }
    {
        self.partial.target(q, a)
    }

    /// The version of documents as lines are read by it.
    pub fn lines_version(&self) -> Version
        ensures { result ≡ self.now.naming.version }
    {
        self.version
    }

    /// The language without rows and accepting states, which starts at state 0.
    pub(crate) fn blank(
        alloc: Global,
        version: Version,
        names: Names,
        alphabet: Alphabet,
        states: usize,
    ) -> Result<Lang, OutOfMemory>
        requires processes { alphabet.processes ≤ document_processes version }
        requires letters { length alphabet.letters ≤ document_letters version }
        requires named { IsNaming (record { version = version; names = names }) alphabet.processes }
        requires some { 1 ≤ states }
        requires few { states ≤ document_states version }
        ensures value { IfOk result (λ lang. lang ≡ record {
          naming = record { version = version; names = names };
          table = blank alphabet states;
        }) }
        ensures whole { IfOk result IsLangData }
    {
        let partial = Partial::blank(alloc, alphabet, states)?;
        Ok(Lang {
            version,
            names,
            partial,
        })
    }

    /// Lets the words start at a state.
    pub(crate) fn start_at(&mut self, q: u8)
        requires { q < self.old.table.states }
        ensures value { self.new ≡ record self.old { table = record self.old.table { start = q } } }
        ensures whole { IsLangData self.new }
    {
        self.partial.start_at(q);
    }

    /// Lets a state accept.
    pub(crate) fn accept(&mut self, q: u8)
        requires { q < self.old.table.states }
        ensures value { self.new ≡ record self.old {
          table = record self.old.table { accepting = slice_set self.old.table.accepting q true };
        } }
        ensures whole { IsLangData self.new }
    {
        self.partial.accept(q);
    }

    /// Lets a letter lead from a state to another, unless it leads elsewhere already.
    pub(crate) fn enter(&mut self, q: u8, a: Letter, r: u8) -> Result<(), TwoTargets>
        requires state { q < self.old.table.states }
        requires letter { a.0 < length self.old.table.alphabet.letters }
        requires target { r < self.old.table.states }
        ensures answer { MatchResult result
            (λ _. (is_other (target_of self.old.table q a.0) r ≡ false)
            × (self.new ≡ record self.old { table = entered self.old.table q a.0 r }))
            (λ _. (is_other (target_of self.old.table q a.0) r ≡ true) × (self.new ≡ self.old)) }
        ensures whole { IsLangData self.new }
    {
        self.partial.enter(q, a, r)
    }
}
