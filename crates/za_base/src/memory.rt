ghost use Rattle.std.specs.Prelude.{◌≡◌, ◌<◌, ◌≤◌, ◌-◌, ◌↔◌, ◌⊎◌, ◌++◌, [], Some, length, min, take, drop, IsErr};
ghost use Rattle.std.specs.Prelude.{OnOk, OnErr, IfOk, Contains};
ghost use Rattle.std.specs.Io.KnownBytes.{ReadConsumes, WriteAppends};
ghost use Rattle.za_base.specs.Fault.{next_count, Rises};

use crate::sink::Sink;
use crate::source::{Failed, Source};
use std::alloc::Global;
use std::marker::Model;
use za_alpha::OutOfMemory;

/// A source over bytes in memory, which it tells. It gives at most `piece` bytes a call. Calls are
/// numbered from 1, and those that `failing` names fail. After 18,446,744,073,709,551,615 calls
/// each further one has that number.
#[derive(Debug, Drop)]
pub struct MemSource {
    bytes: Vec<u8>,
    at: usize,
    piece: usize,
    failing: Vec<u64>,
    calls: u64,
    faults: u64,
}

impl Model for MemSource {
    ghost use Rattle.std.specs.Prelude.{◌<◌, ◌≤◌, drop, vec_len};
    ghost use Rattle.za_base.specs.Memory.{SourceState};

    ghost Value = { SourceState };

    ghost view = { λ s. record {
      left = drop s.at s.bytes.items;
      piece = s.piece;
      failing = s.failing.items;
      calls = s.calls;
      faults = s.faults;
    } };

    ghost invariant = { λ s. (s.at ≤ vec_len s.bytes) × (0 < s.piece) };
}

impl MemSource {
    /// A source of these bytes with no call and no fault so far. `piece` is above 0.
    pub fn new(bytes: Vec<u8>, piece: usize, failing: Vec<u64>) -> MemSource
        requires { 0 < piece }
        ensures { result ≡ record {
          left = bytes.items;
          piece = piece;
          failing = failing.items;
          calls = 0;
          faults = 0;
        } }
    {
        MemSource {
            bytes,
            at: 0,
            piece,
            failing,
            calls: 0,
            faults: 0,
        }
    }
}

impl Source for MemSource {
    ghost left = { λ s. Some s.left };

    ghost faults = { λ s. s.faults };

    /// A call that `failing` names fails. Any other moves as many bytes as the greatest piece,
    /// `into` and the bytes left allow.
    fn read(&mut self, into: &mut [u8]) -> Result<usize, Failed>
        requires { 0 < length into.old }
        ensures within { IfOk result (λ n. n ≤ length into.old) }
        ensures bytes { ReadConsumes (Some self.old.left) (Some self.new.left) result into.new }
        ensures end { IfOk result (λ n. (n ≡ 0) ↔ (self.old.left ≡ [])) }
        ensures never_falls { self.old.faults ≤ self.new.faults }
        ensures fault { OnErr result (Rises self.old.faults self.new.faults) }
        ensures stays { OnOk result (self.new.faults ≡ self.old.faults) }

        // Which calls fail, how many bytes the others give, and what stays.
        ensures fails { IsErr result ↔ Contains self.old.failing (next_count self.old.calls) }
        ensures gives { IfOk result (λ n.
            n ≡ min (min self.old.piece (length into.old)) (length self.old.left)) }
        ensures fills { IfOk result (λ n.
            into.new ≡ take n self.old.left ++ drop n into.old) }
        ensures after_ok { IfOk result (λ n. self.new ≡ record self.old {
          left = drop n self.old.left;
          calls = next_count self.old.calls;
        }) }
        ensures after_err { OnErr result (self.new ≡ record self.old {
          calls = next_count self.old.calls;
          faults = next_count self.old.faults;
        }) }
    {
        self.calls = self.calls.saturating_add(1);
        if self.failing.contains(&self.calls) {
            self.faults = self.faults.saturating_add(1);
            return Err(Failed);
        }
        let n = give(&self.bytes[self.at..], self.piece, into);
        self.at += n;
        Ok(n)
    }
}

/// Copies the first bytes of `left`, at most `most`, to the front of `into`. Says how many they are.
#[tactic(auto, using(crate::proofs::Bytes::consumes_front))]
fn give(left: &[u8], most: usize, into: &mut [u8]) -> usize
    ensures count { result ≡ min (min most (length into.old)) (length left.now) }
    ensures fills { into.new ≡ take result left.now ++ drop result into.old }
    ensures front { left.now ≡ take result into.new ++ drop result left.now }
{
    let n = most.min(into.len()).min(left.len());
    into[..n].copy_from_slice(&left[..n]);
    n
}

/// A sink in memory, which tells its bytes. It has room for `room` bytes in all and takes at most
/// `piece` bytes a call. Calls are numbered from 1, and those that `failing` names fail, and so
/// does each that finds no room left. After 18,446,744,073,709,551,615 calls each further one has
/// that number.
#[derive(Debug, Drop)]
pub struct MemSink {
    bytes: Vec<u8>,
    room: usize,
    piece: usize,
    failing: Vec<u64>,
    calls: u64,
    faults: u64,
}

impl Model for MemSink {
    ghost use Rattle.std.specs.Prelude.{◌<◌, ◌≤◌, vec_len, vec_capacity};
    ghost use Rattle.za_base.specs.Memory.{SinkState};

    ghost Value = { SinkState };

    ghost view = { λ s. record {
      written = s.bytes.items;
      room = s.room;
      piece = s.piece;
      failing = s.failing.items;
      calls = s.calls;
      faults = s.faults;
    } };

    ghost invariant = { λ s.
        (vec_len s.bytes ≤ s.room) × (s.room ≤ vec_capacity s.bytes) × (0 < s.piece) };
}

impl MemSink {
    /// An empty sink with no call and no fault so far. `piece` is above 0. It takes its memory at
    /// once, so no write needs any.
    pub fn new(
        alloc: Global,
        room: usize,
        piece: usize,
        failing: Vec<u64>,
    ) -> Result<MemSink, OutOfMemory>
        requires { 0 < piece }
        ensures { IfOk result (λ s. s ≡ record {
          written = [];
          room = room;
          piece = piece;
          failing = failing.items;
          calls = 0;
          faults = 0;
        }) }
    {
        Ok(MemSink {
            bytes: Vec::with_capacity(alloc, room)?,
            room,
            piece,
            failing,
            calls: 0,
            faults: 0,
        })
    }

    /// The bytes written so far.
    pub fn bytes(&self) -> &[u8]
        ensures { result.now ≡ self.now.written }
    {
        self.bytes.as_slice()
    }

    /// How many writes have failed, up to the last value of a `u64`.
    pub fn faults(&self) -> u64
        ensures { result ≡ self.now.faults }
    {
        self.faults
    }
}

impl Sink for MemSink {
    ghost written = { λ s. Some s.written };

    ghost faults = { λ s. s.faults };

    /// A call that `failing` names, and one that finds no room left, fails. Any other takes as many
    /// bytes as the greatest piece, `piece` and the room left allow.
    fn write(&mut self, piece: &[u8]) -> Result<usize, Failed>
        requires { 0 < length piece.now }
        ensures some { IfOk result (λ n. 1 ≤ n) }
        ensures within { IfOk result (λ n. n ≤ length piece.now) }
        ensures bytes { WriteAppends (Some self.old.written) (Some self.new.written) result
            piece.now }
        ensures never_falls { self.old.faults ≤ self.new.faults }
        ensures fault { OnErr result (Rises self.old.faults self.new.faults) }
        ensures stays { OnOk result (self.new.faults ≡ self.old.faults) }

        // Which calls fail, how many bytes the others take, and what stays.
        ensures fails { IsErr result ↔ (Contains self.old.failing (next_count self.old.calls)
            ⊎ (length self.old.written ≡ self.old.room)) }
        ensures takes { IfOk result (λ n. n ≡ min (min self.old.piece (length piece.now))
            (self.old.room - length self.old.written)) }
        ensures after_ok { IfOk result (λ n. self.new ≡ record self.old {
          written = self.old.written ++ take n piece.now;
          calls = next_count self.old.calls;
        }) }
        ensures after_err { OnErr result (self.new ≡ record self.old {
          calls = next_count self.old.calls;
          faults = next_count self.old.faults;
        }) }
    {
        self.calls = self.calls.saturating_add(1);
        if self.bytes.len() == self.room || self.failing.contains(&self.calls) {
            self.faults = self.faults.saturating_add(1);
            return Err(Failed);
        }
        let n = self
            .piece
            .min(piece.len())
            .min(self.room - self.bytes.len());
        // The memory for all of the room was taken at the start, so the append doesn't fail.
        self.bytes.extend_from_slice(&piece[..n]).unwrap();
        Ok(n)
    }
}
