ghost use Rattle.std.specs.Prelude.{◌≡◌, ℕ, ◌<◌, ◌≤◌, ◌+◌, ◌-◌, ◌^◌, ◌↔◌};
ghost use Rattle.std.specs.Prelude.{Some, None, IsTrue, IfOk, IfSome, MatchOption, true, slice_get};
ghost use Rattle.za_records.specs.declared.shelf.Counted.{Counted};
ghost use Rattle.za_records.specs.Shelf.{at, live, IsLive, passes, count, count as count_at};
ghost use Rattle.za_records.specs.Shelf.{Changes, AreCounted, IsLeastPassing};

use slab::Slab;
use std::alloc::Global;
use std::marker::Model;
use za_alpha::OutOfMemory;

/// The key of a value on a shelf.
#[derive(Clone, Copy, Debug, PartialEq, Eq)]
pub struct Key(pub u32);

/// A value with the number of its holders.
#[derive(Drop)]
pub struct Counted<T> {
    pub value: T,
    pub count: u32,
}

/// A finite map from keys to values with counts above 0. Each count is the number of the value's
/// holders; the last holder's release gives the value back.
#[derive(Drop)]
pub struct Shelf<T> {
    slab: Slab<Counted<T>>,
    capacity: usize,
    /// All keys that are live, or ever were, are below it.
    used: usize,
}

impl<T> Model for Shelf<T> {
    ghost use Rattle.za_records.specs.Shelf as spec;
    ghost use Rattle.za_records.specs.Private.Inside as inside;

    ghost Value = { spec.Shelf T };

    ghost view = { λ s. record { slots = s.slab.slots; capacity = s.capacity } };

    ghost invariant = { λ s. inside.IsShelf s.slab s.capacity s.used };
}

impl<T> Shelf<T> {
    /// An empty shelf with room for so many values, fewer than 4,294,967,295. Want of memory is the
    /// one free answer.
    pub fn new(alloc: Global, capacity: usize) -> Result<Shelf<T>, OutOfMemory>
    where
        T: Drop,
        requires { capacity < 2 ^ 32 - 1 }
        ensures empty { IfOk result (λ s. live s ≡ 0) }
        ensures capacity { IfOk result (λ s. s.capacity ≡ capacity) }
    {
        let slab = Slab::with_capacity(alloc, capacity)?;
        // The list may have been given more room than was asked for; a key has 32 bits.
        if slab.capacity() >= 4_294_967_296 {
            return Err(OutOfMemory);
        }
        Ok(Shelf {
            slab,
            capacity,
            used: 0,
        })
    }

    /// How many keys are live.
    pub fn live(&self) -> usize
        ensures live { result ≡ live self.now }
        ensures within { result ≤ self.now.capacity }
        ensures counted { AreCounted self.now }
    {
        self.slab.len()
    }

    /// How many values fit.
    pub fn capacity(&self) -> usize
        ensures { result ≡ self.now.capacity }
    {
        self.capacity
    }

    /// Whether the key is live.
    pub fn has(&self, key: Key) -> bool
        ensures { IsTrue result ↔ IsLive self.now key.0 }
    {
        self.slab.contains(key.0 as usize)
    }

    /// The value of a live key.
    pub fn get(&self, key: Key) -> &T
        requires { IsLive self.now key.0 }
        ensures { MatchOption (at self.now key.0) ⊥ (λ c. result.now ≡ c.value) }
    {
        &self.slab[key.0 as usize].value
    }

    /// The count of a live key.
    pub fn count(&self, key: Key) -> u32
        requires { IsLive self.now key.0 }
        ensures value { result ≡ count self.now key.0 }
        ensures some { 0 < result }
    {
        self.slab[key.0 as usize].count
    }

    /// Puts a value under a key that isn't live, with a count above 0. There is room: fewer keys are
    /// live than fit.
    pub fn put(&mut self, value: T, count: u32) -> Key
        requires room { live self.old < self.old.capacity }
        requires some { 0 < count }
        ensures vacant { at self.old result.0 ≡ None }
        ensures changes { Changes self.old self.new result.0 (Some (record { value = value; count = count })) }
        ensures live { live self.new ≡ live self.old + 1 }
    {
        let key = self.slab.insert_reserved(Counted { value, count });
        if key >= self.used {
            self.used = key + 1;
        }
        Key(key as u32)
    }

    /// Adds to the count of a live key. The sum has 32 bits.
    pub fn hold(&mut self, key: Key, count: u32)
        requires live { IsLive self.old key.0 }
        requires fits { count_at self.old key.0 + count < 2 ^ 32 }
        ensures changes { MatchOption (at self.old key.0) ⊥
            (λ c. Changes self.old self.new key.0 (Some (record c { count = c.count + count }))) }
        ensures live { live self.new ≡ live self.old }
    {
        self.slab[key.0 as usize].count += count;
    }

    /// Takes one from the count of a live key. Where the count was 1 the key is live no more, and the
    /// value is given back.
    pub fn release(&mut self, key: Key) -> Option<T>
    where
        T: Drop,
        requires { IsLive self.old key.0 }
        ensures last { count self.old key.0 ≡ 1 →
            (Changes self.old self.new key.0 None) ×
            (MatchOption (at self.old key.0) ⊥ (λ c. result ≡ Some c.value)) ×
            (live self.new + 1 ≡ live self.old) }
        ensures more { 1 < count self.old key.0 →
            (result ≡ None) ×
            (MatchOption (at self.old key.0) ⊥
            (λ c. Changes self.old self.new key.0 (Some (record c { count = c.count - 1 })))) ×
            (live self.new ≡ live self.old) }
    {
        if self.count(key) == 1 {
            return Some(self.slab.remove(key.0 as usize).value);
        }
        self.slab[key.0 as usize].count -= 1;
        None
    }

    /// Takes one from the count of a key that has another holder too: the key stays live.
    pub fn release_one(&mut self, key: Key)
        requires { 1 < count_at self.old key.0 }
        ensures changes { MatchOption (at self.old key.0) ⊥
            (λ c. Changes self.old self.new key.0 (Some (record c { count = c.count - 1 }))) }
        ensures live { live self.new ≡ live self.old }
    {
        self.slab[key.0 as usize].count -= 1;
    }

    /// Whether an equal value stands at the key.
    fn is_at(&self, key: usize, value: &T) -> bool
    where
        T: PartialEq,
        ensures { result ≡ passes (λ v. T.eq v value.now) (at self.now key) }
    {
        match self.slab.get(key) {
            Some(counted) => counted.value == *value,
            None => false,
        }
    }

    /// The least live key whose value is equal, and `None` exactly where there is none.
    pub fn same(&self, value: &T) -> Option<Key>
    where
        T: PartialEq,
        ensures least { IsLeastPassing (λ v. T.eq v value.now) self.now result }
        ensures counted { IfSome result (λ key. 0 < count self.now key.0) }
    {
        self.same_marked(value, &[], 0)
    }

    /// The same, where keys may have marks, by which values are told apart without a look at them:
    /// where an equal value has a mark, it is this one.
    pub fn same_marked(&self, value: &T, marks: &[u32], mark: u32) -> Option<Key>
    where
        T: PartialEq,
        requires { (key other : ℕ) → passes (λ v. T.eq v value.now) (at self.now key) ≡ true →
            slice_get marks.now key ≡ Some other → other ≡ mark }
        ensures least { IsLeastPassing (λ v. T.eq v value.now) self.now result }
        ensures counted { IfSome result (λ key. 0 < count self.now key.0) }
    {
        for key in 0..self.used {
            if may_have(marks, key, mark) && self.is_at(key, value) {
                let found = Key(key as u32);
                let _count = self.count(found);
                return Some(found);
            }
        }
        None
    }
}

/// Whether the key has no mark, or this one.
fn may_have(marks: &[u32], key: usize, mark: u32) -> bool
    ensures { IsTrue result ↔ ((other : ℕ) → slice_get marks.now key ≡ Some other → other ≡ mark) }
{
    match marks.get(key) {
        Some(other) => *other == mark,
        None => true,
    }
}
