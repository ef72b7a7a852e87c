ghost use Rattle.std.specs.Prelude.{◌≡◌, ◌<◌, ◌==◌, length, slice_get, Some};

use std::marker::Model;

/// A row of marks, one for each position of a word, seen by contracts as the list of them.
#[derive(Debug, Drop)]
pub struct BitRow {
    marks: Vec<bool>,
}

impl Model for BitRow {
    ghost use Rattle.std.specs.Prelude.{List, Bool};

    ghost Value = { List Bool };

    ghost view = { λ r. r.marks.items };
}

impl BitRow {
    /// The row of these marks.
    pub(crate) fn of(marks: Vec<bool>) -> BitRow
        ensures { result ≡ marks.items }
    {
        BitRow { marks }
    }

    /// Whether position `i` is marked.
    pub fn has(&self, i: usize) -> bool
        requires { i < length self.now }
        ensures { slice_get self.now i ≡ Some result }
    {
        self.marks[i]
    }

    /// How many positions there are.
    pub fn len(&self) -> usize
        ensures { result ≡ length self.now }
    {
        self.marks.len()
    }

    /// Whether there is no position.
    pub fn is_empty(&self) -> bool
        ensures { result ≡ (length self.now == 0) }
    {
        self.marks.is_empty()
    }
}
