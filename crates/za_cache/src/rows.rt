ghost use Rattle.std.specs.Prelude.{◌≡◌, ◌==◌, ◌<◌, ◌≤◌, [], length, IfOk, is_some, false};
ghost use Rattle.std.specs.Map.{lookup};
ghost use Rattle.lru.specs.LruCache.{lru_cache, promoted};
ghost use Rattle.za_alpha.specs.Limits.{most_processes};
ghost use Rattle.za_cache.specs.Lines.{is_key, line_key, AreDistinct, HasKept};
ghost use Rattle.za_cache.specs.Private.Inside.{is_row_key};

use lru::LruCache;
use smallvec::SmallVec;
use std::alloc::Global;
use std::marker::Model;
use std::num::NonZeroUsize;
use za_alpha::{MOST_PROCESSES, OutOfMemory};

/// A short list of numbers, which takes no memory up to 10 of them.
pub type Keys = SmallVec<u32, MOST_PROCESSES>;

/// What a line is looked up by: a letter with the keys of its inputs.
#[derive(PartialEq, Eq, Hash, Drop)]
pub struct RowKey {
    pub letter: u8,
    pub inputs: Keys,
}

/// A line: a letter with the keys of its inputs, and the key of the output.
#[derive(Debug, PartialEq, Eq, Drop)]
pub struct Line {
    pub letter: u8,
    pub inputs: Keys,
    pub output: u32,
}

/// What became of a line that was to be kept.
#[derive(Debug, PartialEq, Eq, Drop)]
pub enum Kept {
    /// The line stands in front, and there was room.
    Stored,
    /// The line stands in front; the rows were full, and the last line was dropped: this one.
    Replaced(Line),
    /// Memory was refused, and the rows are as they were: this is the new line.
    Refused(Line),
}

/// A bounded list of lines with distinct letters and inputs, the most recently used first.
#[derive(Drop)]
pub struct Rows {
    cache: LruCache<RowKey, u32>,
}

impl Model for Rows {
    ghost use Rattle.za_cache.specs.Lines.{Lines};

    ghost Value = { Lines };

    ghost use Rattle.za_cache.specs.Private.Inside.{lines_in};

    ghost view = { lines_in };
}

impl Rows {
    /// Rows without lines, with room for `capacity` of them, at least one. Want of memory is the one
    /// free answer.
    pub fn new(alloc: Global, capacity: usize) -> Result<Rows, OutOfMemory>
        requires { 0 < capacity }
        ensures { IfOk result (λ r. r ≡ record { lines = []; capacity = capacity }) }
    {
        let Some(capacity) = NonZeroUsize::new(capacity) else {
            unreachable!()
        };
        Ok(Rows {
            cache: LruCache::new(alloc, capacity)?,
        })
    }

    /// How many lines there are.
    pub fn len(&self) -> usize
        ensures value { result ≡ length self.now.lines }
        ensures few { result ≤ self.now.capacity }
        ensures distinct { AreDistinct self.now }
    {
        self.cache.len()
    }

    /// Whether there is no line.
    pub fn is_empty(&self) -> bool
        ensures { result ≡ (length self.now.lines == 0) }
    {
        self.cache.is_empty()
    }

    /// The output of the line with this letter and these inputs, at most 10, which goes to the front.
    /// `None` comes exactly where there is no such line; the lines then stay as they were.
    pub fn find(&mut self, letter: u8, inputs: &[u32]) -> Option<u32>
        requires { length inputs.now ≤ most_processes }
        ensures found { result ≡ lookup (is_key letter inputs.now) self.old.lines }
        ensures lines { self.new ≡ record self.old { lines = promoted (is_key letter inputs.now) self.old.lines } }
    {
        let Ok(inputs) = SmallVec::from_slice(*self.cache.allocator(), inputs) else {
            unreachable!()
        };
        self.find_row(&RowKey { letter, inputs })
    }

    /// The same with the key as the rows keep it. It copies nothing.
    pub fn find_row(&mut self, key: &RowKey) -> Option<u32>
        ensures found { result ≡ lookup (is_key key.now.letter key.now.inputs.items) self.old.lines }
        ensures lines { self.new ≡ record self.old {
          lines = promoted (is_key key.now.letter key.now.inputs.items) self.old.lines;
        } }
    {
        look_up(&mut self.cache, key)
    }

    /// Keeps a line in front whose letter and inputs, at most 10, no line has. Where the rows are
    /// full the last line goes, and where memory is refused the new one does: the answer hands it
    /// back.
    pub fn keep(&mut self, letter: u8, inputs: &[u32], output: u32) -> Kept
        requires small { length inputs.now ≤ most_processes }
        requires absent { is_some (lookup (is_key letter inputs.now) self.old.lines) ≡ false }
        ensures { HasKept self.old self.new (line_key letter inputs.now, output) result }
    {
        let _count = self.cache.len();
        let Ok(inputs) = SmallVec::from_slice(*self.cache.allocator(), inputs) else {
            unreachable!()
        };
        let key = RowKey { letter, inputs };
        match self.cache.push(key, output) {
            Ok(None) => Kept::Stored,
            Ok(Some((key, output))) => Kept::Replaced(line_of(key, output)),
            Err(failed) => {
                let (key, output) = failed.value;
                Kept::Refused(line_of(key, output))
            }
        }
    }
}

/// The value of a key, which goes to the front.
fn look_up(cache: &mut LruCache<RowKey, u32>, key: &RowKey) -> Option<u32>
    ensures found { result ≡ lookup (is_row_key key.now.letter key.now.inputs.items) cache.old.entries }
    ensures entries { cache.new ≡
        lru_cache (promoted (is_row_key key.now.letter key.now.inputs.items) cache.old.entries) cache.old.cap }
{
    cache.get(key).copied()
}

/// The line of a key and an output.
fn line_of(key: RowKey, output: u32) -> Line
    ensures { result ≡ record { letter = key.letter; inputs = key.inputs; output = output } }
{
    Line {
        letter: key.letter,
        inputs: key.inputs,
        output,
    }
}
