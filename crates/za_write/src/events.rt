//! Events by their letters and labels, and by their numbers.

ghost use Rattle.std.specs.Prelude.{◌≡◌, ◌<◌, ◌≤◌, ◌++◌, ◌∷◌, [], All, OnOk, OnErr, length, map};
ghost use Rattle.za_order.specs.Labels.{label_bound};
ghost use Rattle.za_ids.specs.Numbers.{event_numbers};
ghost use Rattle.za_text.specs.Printed.{spaced};
ghost use Rattle.za_write.specs.Events.{event_word, number_word};

use crate::pieces::push_pieces;
use crate::words::push_word;
use itoa::Buffer;
use za_alpha::{Alphabet, Letter, OutOfMemory};
use za_ids::{EventId, label_of, letter_of};

/// An event after a space: its letter's name, a point and its label.
pub fn push_event(
    text: &mut Vec<u8>,
    alphabet: &Alphabet,
    a: Letter,
    label: u16,
) -> Result<(), OutOfMemory>
    requires { a.0 < length alphabet.now.letters }
    ensures ok { OnOk result (text.new.items
        ≡ text.old.items ++ spaced (event_word alphabet.now a.0 label ∷ [])) }
    ensures err { OnErr result (text.new.items ≡ text.old.items) }
{
    let mut buffer = Buffer::new();
    push_pieces(
        text,
        &[
            b" ",
            alphabet.name(a),
            b".",
            buffer.format(label).as_bytes(),
        ],
    )
}

/// An event by its number, after a space; a hyphen for 0.
pub fn push_entry(text: &mut Vec<u8>, alphabet: &Alphabet, id: EventId) -> Result<(), OutOfMemory>
    requires { id.0 ≤ label_bound (length alphabet.now.letters) alphabet.now.processes }
    ensures ok { OnOk result (text.new.items
        ≡ text.old.items ++ spaced (number_word alphabet.now id.0 ∷ [])) }
    ensures err { OnErr result (text.new.items ≡ text.old.items) }
{
    let n = alphabet.processes();
    match (letter_of(n, id), label_of(n, id)) {
        (Some(a), Some(label)) => push_event(text, alphabet, a, label),
        _ => push_word(text, b"-"),
    }
}

/// Events by their numbers, each after a space.
pub fn push_entries(
    text: &mut Vec<u8>,
    alphabet: &Alphabet,
    ids: &[EventId],
) -> Result<(), OutOfMemory>
    requires { All (λ v. v ≤ label_bound (length alphabet.now.letters) alphabet.now.processes)
        (event_numbers ids.now) }
    ensures ok { OnOk result (text.new.items
        ≡ text.old.items ++ spaced (map (number_word alphabet.now) (event_numbers ids.now))) }
    ensures err { OnErr result (text.new.items ≡ text.old.items) }
{
    let len = text.len();
    for id in ids {
        if push_entry(text, alphabet, *id).is_err() {
            text.truncate(len);
            return Err(OutOfMemory);
        }
    }
    Ok(())
}
