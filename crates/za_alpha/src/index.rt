ghost use Rattle.std.specs.Prelude.{◌≡◌, ◌<◌, ◌+◌, ◌*◌, ◌%◌, [], replicate, slice_index, slice_set};
ghost use Rattle.std.specs.Prelude.{IfSome, is_some, length, map};
ghost use Rattle.za_alpha.specs.Limits.{most_letters};
ghost use Rattle.za_alpha.specs.Alphabet.{NamedLetter, place_of};
ghost use Rattle.za_alpha.specs.NewNames.{is_taken};
ghost use Rattle.za_alpha.specs.Private.Index.{key_of, keys, IsIndex};
ghost use Rattle.za_alpha.specs.Private.Begun.{AreNamedApart};

use crate::rows::MOST_LETTERS;

/// How many keys of names there are.
const KEYS: usize = 256;

/// An index of names: for each key the last letter whose name has it, and for each letter the last
/// one before it whose name has the same key; each as one more than its place, and 0 for none.
#[derive(Clone, Copy, Debug)]
pub(crate) struct Index {
    pub(crate) first: [u8; KEYS],
    pub(crate) next: [u8; MOST_LETTERS],
}

/// The key of the bytes before and one more.
fn key_after(key: usize, byte: u8) -> usize
    requires { key < keys }
    ensures value { result ≡ (key * 37 + byte) % keys }
    ensures small { result < keys }
{
    (key * 37 + byte as usize) % KEYS
}

/// The key of a name of any length.
fn key_of_all(name: &[u8]) -> usize
    ensures value { result ≡ key_of name.now }
    ensures small { result < keys }
{
    let mut key = 0;
    for b in name {
        key = key_after(key, *b);
    }
    key
}

/// The key of a name, made byte by byte. Most names of letters have at most three bytes, and these take no loop.
pub(crate) fn key_of(name: &[u8]) -> usize
    ensures value { result ≡ key_of name.now }
    ensures small { result < keys }
{
    match name.len() {
        1 => key_after(0, name[0]),
        2 => key_after(key_after(0, name[0]), name[1]),
        3 => key_after(key_after(key_after(0, name[0]), name[1]), name[2]),
        _ => key_of_all(name),
    }
}

/// The last letters of the keys where there are none.
fn no_firsts() -> [u8; KEYS]
    ensures { result ≡ replicate keys 0 }
{
    [0; KEYS]
}

/// The letters before where there are none.
fn no_nexts() -> [u8; MOST_LETTERS]
    ensures { result ≡ replicate most_letters 0 }
{
    [0; MOST_LETTERS]
}

impl Index {
    /// The index of no letters.
    pub(crate) fn new() -> Index
        ensures { IsIndex [] result }
    {
        Index {
            first: no_firsts(),
            next: no_nexts(),
        }
    }

    /// Puts a letter at the head of the chain of its key.
    pub(crate) fn add(&mut self, place: usize, key: usize)
        requires place { place < most_letters }
        requires key { key < keys }
        ensures first { self.new.first ≡ slice_set self.old.first key (place + 1) }
        ensures next { self.new.next ≡ slice_set self.old.next place (slice_index self.old.first key) }
    {
        self.next[place] = self.first[key];
        self.first[key] = place as u8 + 1;
    }
}

/// What has the name of a letter.
pub(crate) trait Named {
    ghost letter: { Self → NamedLetter };

    fn name(&self) -> &[u8]
        ensures { result.now ≡ (letter self.now).name };
}

/// A place at which the name stands, by the index of the names: the first one where names tell the items apart.
pub(crate) fn place_of_name<N: Named>(items: &[N], index: &Index, name: &[u8]) -> Option<usize>
    requires { IsIndex (map N.letter items.now) index.now }
    ensures within { IfSome result (λ i. i < length items.now) }
    ensures taken { is_some result ≡ is_taken (map N.letter items.now) name.now }
    ensures first { AreNamedApart (map N.letter items.now) → result ≡ place_of (map N.letter items.now) name.now }
{
    let mut at = index.first[key_of(name)] as usize;
    'chain: while 0 < at {
        let i = at - 1;
        if items[i].name() == name {
            return Some(i);
        }
        at = index.next[i] as usize;
    }
    None
}
