//! Letters that are drawn from a number.

ghost use Rattle.std.specs.Prelude.{◌≡◌, ◌<◌, IfOk};
ghost use Rattle.za_alpha.specs.Words.{IsWord};
ghost use Rattle.za_gen.specs.Drawn.{draw_of, drawn, letter_drawn, stepped};

use std::alloc::Global;
use za_alpha::{Letter, OutOfMemory, Word};

/// The register after one draw more.
fn stepped(s: u64) -> u64
    ensures { result ≡ stepped s }
{
    s.wrapping_mul(6364136223846793005)
        .wrapping_add(1442695040888963407)
}

/// The letter of the draw that left this register.
fn letter_drawn(s: u64) -> Letter
    ensures value { result.0 ≡ letter_drawn (draw_of s) }
    ensures small { result.0 < 8 }
{
    let draw = s >> 33;
    Letter((draw % 8) as u8)
}

/// So many letters that are drawn from a number.
pub(crate) fn drawn(alloc: Global, number: u32, count: usize) -> Result<Word, OutOfMemory>
    ensures value { IfOk result (λ w. w ≡ drawn number count) }
    ensures letters { IfOk result (λ w. IsWord 8 w) }
{
    let mut word = Word::new(alloc);
    let mut register = u64::from(number);
    for _ in 0..count {
        register = stepped(register);
        word.push(letter_drawn(register))?;
    }
    Ok(word)
}
