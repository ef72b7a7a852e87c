//! What a `read` line says: a process, and numbers for its list.

ghost use Rattle.std.specs.Prelude.{◌≡◌, ◌<◌, ◌==◌, ◌++◌, [], ℕ, None, length};
ghost use Rattle.std.specs.Prelude.{MatchResult, OnOk, if◌then◌else◌};
ghost use Rattle.std.specs.List.{filter_map};
ghost use Rattle.za_text.specs.Numbers.{numeral_value};
ghost use Rattle.za_lang.specs.Gathering.{IsWrong};
ghost use Rattle.za_news.specs.Readings.{list_of};
ghost use Rattle.za_news.specs.Grammar.{numbers_fault, numbers_said, read_line_fault};
ghost use Rattle.za_news.specs.declared.order.Head.{Head};

use crate::readings::Readings;
use za_lang::{Refusal, Words};
use za_text::{Kind, Names, number};

/// Appends the numbers that the words are to the list of process `p`.
fn add_numbers(readings: &mut Readings, p: usize, mut words: Words) -> Result<(), Refusal>
    requires { p < length readings.old }
    ensures size { OnOk result (length readings.new ≡ length readings.old) }
    ensures added { MatchResult result
        (λ _. (numbers_fault words.entry ≡ None)
        × ((q : ℕ) → list_of readings.new q
        ≡ list_of readings.old q ++ (if q == p then filter_map numeral_value words.entry else [])))
        (IsWrong (numbers_fault words.entry)) }
{
    while let Some(word) = words.next() {
        let Some(number) = number(word) else {
            return Err(Refusal::Wrong(Kind::BadNumber));
        };
        readings.add(p, number)?;
    }
    Ok(())
}

/// Takes what a `read` line says, by its words after the first.
pub(crate) fn take_read(
    readings: &mut Readings,
    names: &Names,
    mut words: Words,
) -> Result<(), Refusal>
    requires { length readings.old ≡ length names.now }
    ensures size { OnOk result (length readings.new ≡ length names.now) }
    ensures taken { MatchResult result
        (λ _. (read_line_fault names.now words.entry ≡ None)
        × ((q : ℕ) → list_of readings.new q
        ≡ list_of readings.old q ++ numbers_said names.now q Head.Read words.entry))
        (IsWrong (read_line_fault names.now words.entry)) }
{
    let Some(word) = words.next() else {
        return Err(Refusal::Wrong(Kind::WordCount));
    };
    let Some(p) = names.find(word) else {
        return Err(Refusal::Wrong(Kind::NoSuchProcess));
    };
    add_numbers(readings, p, words)
}
