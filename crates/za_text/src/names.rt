ghost use Rattle.std.specs.Prelude.{◌≡◌, ◌<◌, ◌≤◌, ◌++◌, ◌∷◌, [], length, All, IsTrue, ◌↔◌, None, IfOk, OnOk, OnErr};
ghost use Rattle.za_alpha.specs.Limits.{most_processes};
ghost use Rattle.za_names.specs.Names.{is_name};
ghost use Rattle.za_text.specs.ProcessNames.{name_of, numbered, process_named, AreNames};

use std::alloc::Global;
use std::marker::Model;
use za_alpha::OutOfMemory;
use za_names::is_name;

/// The names of processes, in the order of the numbers of these: at most 10, and no two the same.
/// Contracts see the list of the names.
#[derive(Debug, Drop)]
pub struct Names {
    names: Vec<Vec<u8>>,
}

impl Model for Names {
    ghost use Rattle.std.specs.Prelude.{List, ℕ};
    ghost use Rattle.za_text.specs.Private.NamesInside.{names_inside, AreNamesInside};

    ghost Value = { List (List ℕ) };

    ghost view = { names_inside };

    ghost invariant = { AreNamesInside };
}

impl Names {
    /// No names. They keep the allocator for those that are added.
    pub fn empty(alloc: Global) -> Names
        ensures { result ≡ [] }
    {
        Names {
            names: Vec::new(alloc),
        }
    }

    /// The decimal numbers of `n` processes, at most 10, as their names. Want of memory is the one free
    /// answer.
    pub fn numbers(alloc: Global, n: usize) -> Result<Names, OutOfMemory>
        requires { n ≤ most_processes }
        ensures { IfOk result (λ names. names ≡ numbered n) }
    {
        let mut names = Vec::with_capacity(alloc, n)?;
        for p in 0..n {
            names.push(Vec::from_slice(alloc, &[b'0' + p as u8])?)?;
        }
        Ok(Names { names })
    }

    /// Appends the name of the next process: 1 to 32 letters, digits and underscores, of which the first
    /// is no digit. No process may have it yet, and there may be at most 9. Where memory is refused the
    /// names stay as they were.
    pub fn add(&mut self, name: &[u8]) -> Result<(), OutOfMemory>
        requires name { IsTrue (is_name name.now) }
        requires fresh { process_named self.old name.now ≡ None }
        requires room { length self.old < most_processes }
        ensures ok { OnOk result (self.new ≡ self.old ++ name.now ∷ []) }
        ensures err { OnErr result (self.new ≡ self.old) }
    {
        let alloc = *self.names.allocator();
        let name = Vec::from_slice(alloc, name)?;
        self.names.push(name)?;
        Ok(())
    }

    /// The name of process `p`.
    pub fn of(&self, p: usize) -> &[u8]
        requires { p < length self.now }
        ensures { result.now ≡ name_of self.now p }
    {
        self.names[p].as_slice()
    }

    /// How many names there are, at most 10.
    pub fn len(&self) -> usize
        ensures value { result ≡ length self.now }
        ensures limits { AreNames self.now }
    {
        self.names.len()
    }

    /// Whether each of them is a name: 1 to 32 letters, digits and underscores, of which the first is no
    /// digit. The numbers of processes are none.
    pub fn are_names(&self) -> bool
        ensures { IsTrue result ↔ All (λ name. IsTrue (is_name name)) self.now }
    {
        for p in 0..self.names.len() {
            if !is_name(self.names[p].as_slice()) {
                return false;
            }
        }
        true
    }

    /// The process that has the name, and `None` exactly where none has it.
    pub fn find(&self, word: &[u8]) -> Option<usize>
        ensures { result ≡ process_named self.now word.now }
    {
        for p in 0..self.names.len() {
            if self.names[p].as_slice() == word {
                return Some(p);
            }
        }
        None
    }
}
