ghost use Rattle.std.specs.Prelude.{◌≡◌, ◌<◌, ◌==◌, ◌++◌, ◌∷◌, [], ℕ, length, replicate};
ghost use Rattle.std.specs.Prelude.{IfOk, OnOk, if◌then◌else◌};
ghost use Rattle.za_news.specs.Readings.{list_of, reading_at};

use std::alloc::Global;
use std::marker::Model;
use za_alpha::OutOfMemory;

/// A list of numbers for each process. Contracts see the list of these lists.
#[derive(Debug, Drop)]
pub struct Readings {
    lists: Vec<Vec<u32>>,
}

impl Model for Readings {
    ghost use Rattle.std.specs.Prelude.{List, ℕ};
    ghost use Rattle.za_news.specs.Private.Inside.{lists_of};

    ghost Value = { List (List ℕ) };

    ghost view = { lists_of };
}

impl Readings {
    /// An empty list for each of `n` processes.
    pub(crate) fn empty(alloc: Global, n: usize) -> Result<Readings, OutOfMemory>
        ensures { IfOk result (λ readings. readings ≡ replicate n []) }
    {
        let mut lists = Vec::with_capacity(alloc, n)?;
        for _ in 0..n {
            lists.push(Vec::new(alloc))?;
        }
        Ok(Readings { lists })
    }

    /// Appends a number to the list of process `p`.
    pub(crate) fn add(&mut self, p: usize, number: u32) -> Result<(), OutOfMemory>
        requires { p < length self.old }
        ensures size { OnOk result (length self.new ≡ length self.old) }
        ensures added { OnOk result ((q : ℕ) →
            list_of self.new q ≡ list_of self.old q ++ (if q == p then number ∷ [] else [])) }
    {
        self.lists[p].push(number)?;
        Ok(())
    }

    /// The number at index `k` of the list of process `p`. It is 0 past the list, and where `p` has none.
    pub fn at(&self, p: usize, k: usize) -> u32
        ensures { result ≡ reading_at self.now p k }
    {
        match self.lists.get(p) {
            Some(list) => match list.get(k) {
                Some(number) => *number,
                None => 0,
            },
            None => 0,
        }
    }
}
