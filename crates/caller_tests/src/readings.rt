//! What processes know of each other's readings.

use callers::news::news_of;
use callers::sensors::last_reading;
use samples::{TWO_PROCESSES, alphabet_of, word_of};
use std::alloc::Global;
use std::process::Abort;
use std::test::Fail;
use za_alpha::{Alphabet, OutOfMemory, Word};
use za_lang::JobFault;
use za_text::{Kind, TextFault};

/// Two stations that meet once. Each takes readings of its own, and at the meeting the left one.
const STATIONS: &[u8] = b"zla 2\nprocesses left right\nletter a left\nletter b right\n\
    letter meet left right\nstates 1\nstart 0\naccept 0\nrow 0 a 0\nrow 0 b 0\n\
    row 0 meet 0\nscript left a meet a\nscript right b meet\nend\nreadings\n\
    read left 17 18 21\nread right 9\nend\n";

#[test]
fn news_of_two_stations(rt: HostRuntime) {
    let text = news_of(rt.alloc(), STATIONS);
    let known = b"known left 21 18\nknown right 18 18\n";
    assert!(rt; text.is_ok_and(|text| text.as_slice() == known.as_slice()));
}

#[test]
fn readings_need_their_line(rt: HostRuntime) {
    let fault = JobFault::Text(TextFault {
        line: 2,
        kind: Kind::NoEnd,
    });
    let text = b"zla 2\nreadings\n".as_slice();
    assert!(rt; news_of(rt.alloc(), text).is_err_and(|seen| seen == fault));
}

/// A word of meetings, the reading at each, and what the first knows of itself and of the second, and the second of the first and
/// of itself.
type Case = (&'static [u8], &'static [u32], [Option<u32>; 4]);

static KNOWN: [Case; 3] = [
    (&[0], &[10], [Some(10), None, None, None]),
    (&[0, 2], &[10, 20], [Some(20), Some(20), Some(20), Some(20)]),
    (
        &[2, 0, 1],
        &[20, 7, 9],
        [Some(7), Some(20), Some(20), Some(9)],
    ),
];

fn assert_known(
    rt: &impl Abort,
    alloc: Global,
    alphabet: &Alphabet,
    w: &Word,
    case: &Case,
) -> Result<(), OutOfMemory> {
    let (_, readings, known) = case;
    assert!(rt; alphabet.processes() == 2 && alphabet.has_word(w) && readings.len() == w.len());
    for (i, number) in known.iter().enumerate() {
        let (p, q) = (i / 2, i % 2);
        assert!(rt; p < 2 && q < 2);
        let reading = last_reading(alloc, alphabet, w, readings, p, q)?;
        assert_eq!(rt; reading, *number, "{p} of {q}");
    }
    Ok(())
}

#[test]
fn readings_of_two_stations(rt: HostRuntime) -> Result<(), Fail> {
    let alphabet = alphabet_of(rt.alloc(), 2, &TWO_PROCESSES)?;
    for case in &KNOWN {
        let w = word_of(rt.alloc(), case.0)?;
        assert_known(&rt, rt.alloc(), &alphabet, &w, case)?;
    }
    Ok(())
}
