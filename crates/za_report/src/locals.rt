//! The text that says what each process knows.

ghost use Rattle.std.specs.Prelude.{◌≡◌, ℕ, ◌++◌, List, OnOk, IfOk, length};
ghost use Rattle.za_alpha.specs.Words.{IsWord};
ghost use Rattle.za_local.specs.Locals.{local_after};
ghost use Rattle.za_text.specs.Printed.{spaced, line};
ghost use Rattle.za_report.specs.LocalStates.{known_words, local_line, locals_text};

use itoa::Buffer;
use std::alloc::Global;
use za_alpha::OutOfMemory;
use za_dfa::Closed;
use za_local::{Local, view_state};
use za_table::Ended;
use za_write::{push_entries, push_number, push_pieces, push_word};

/// What a process knows, each part after a space: the latest event of each process that it knows, and the
/// state of the automaton after all events that it knows, as its local state after some word has it. Want of
/// memory is the one free answer.
pub fn push_known(text: &mut Vec<u8>, closed: &Closed, local: &Local) -> Result<(), OutOfMemory>
    requires { (w : List ℕ) × (p : ℕ) × IsWord (length closed.now.alphabet.letters) w
        × (local.now ≡ local_after closed.now w p) }
    ensures { (w : List ℕ) (p : ℕ) → IsWord (length closed.now.alphabet.letters) w →
        local.now ≡ local_after closed.now w p →
        OnOk result (text.new.items ≡ text.old.items ++ spaced (known_words closed.now w p)) }
{
    let alphabet = closed.dfa().alphabet();
    let _processes = alphabet.processes();
    let state = view_state(closed, local);
    push_entries(text, alphabet, local.gossip().primary())?;
    push_word(text, b"view")?;
    push_number(text, state as usize)?;
    Ok(())
}

/// The line of a process, by its local state after some word.
fn push_local(
    text: &mut Vec<u8>,
    closed: &Closed,
    p: usize,
    local: &Local,
) -> Result<(), OutOfMemory>
    requires { (w : List ℕ) × IsWord (length closed.now.alphabet.letters) w
        × (local.now ≡ local_after closed.now w p) }
    ensures { (w : List ℕ) → IsWord (length closed.now.alphabet.letters) w →
        local.now ≡ local_after closed.now w p →
        OnOk result (text.new.items ≡ text.old.items ++ line (local_line closed.now w p)) }
{
    let mut buffer = Buffer::new();
    push_pieces(text, &[b"p", buffer.format(p).as_bytes()])?;
    push_known(text, closed, local)?;
    text.push(b'\n')?;
    Ok(())
}

/// The text of what each process knows at the end of a run: the latest event of each process that it knows,
/// and the state of the automaton after all events that it knows, as the local states have it.
///
/// The automaton equals that of the table that ended. Want of memory is the one free answer.
pub fn locals_text(alloc: Global, closed: &Closed, ended: &Ended) -> Result<Vec<u8>, OutOfMemory>
    requires { closed.now ≡ ended.now.given.dfa }
    ensures { IfOk result (λ text. text.items ≡ locals_text closed.now ended.now.state.journal) }
{
    let mut text = Vec::new(alloc);
    for p in 0..closed.dfa().alphabet().processes() {
        push_local(&mut text, closed, p, ended.local(p))?;
    }
    Ok(text)
}
