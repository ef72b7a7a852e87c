ghost use Rattle.std.specs.Prelude.{◌≡◌, ◌≤◌, ◌<◌, ◌^◌, All, length};
ghost use Rattle.std.specs.List.{list_all};
ghost use Rattle.za_text.specs.Numbers.{is_digit, is_numeral, value_of, numeral_value};

/// The most digits of a number.
const MOST_DIGITS: usize = 10;

fn is_digit(b: u8) -> bool
    ensures { result ≡ is_digit b }
{
    matches!(b, b'0'..=b'9')
}

fn are_digits(word: &[u8]) -> bool
    ensures { result ≡ list_all is_digit word.now }
{
    word.iter().all(|b| is_digit(*b))
}

/// Whether the word is 1 to 10 digits, of which the first is no 0, but for 0 itself.
fn is_numeral(word: &[u8]) -> bool
    ensures { result ≡ is_numeral word.now }
{
    match word {
        [] => false,
        [digit] => is_digit(*digit),
        [first, ..] => *first != b'0' && word.len() <= MOST_DIGITS && are_digits(word),
    }
}

/// The value of at most 10 digits.
fn value(digits: &[u8]) -> u64
    requires { length digits.now ≤ 10 }
    ensures { result ≡ value_of digits.now }
{
    let mut value = 0u64;
    for digit in digits {
        value = value * 10 + u64::from(digit.saturating_sub(b'0'));
    }
    value
}

/// The number that the word is: 1 to 10 decimal digits without a leading 0, but for `0` itself, of
/// value at most 4,294,967,295. `None` where the word is no such number.
pub fn number(word: &[u8]) -> Option<u32>
    ensures { result ≡ numeral_value word.now }
{
    if !is_numeral(word) {
        return None;
    }
    let value = value(word);
    if value <= u64::from(u32::MAX) {
        Some(value as u32)
    } else {
        None
    }
}
