//! Labels and entries of events by positions.

ghost use Rattle.std.specs.Prelude.{◌≡◌, ◌≤◌, length, IfOk};

use samples::{FOUR_PROCESSES, Named, ONE_PROCESS, RING, TWO_PROCESSES, alphabet_of};
use std::alloc::Global;
use std::process::Abort;
use std::test::Fail;
use za_alpha::{Alphabet, Letter, OutOfMemory};
use za_views::Marks;

/// The word with its marks, each label compared as its event is pushed.
fn marked(
    rt: &impl Abort,
    alloc: Global,
    alphabet: &Alphabet,
    word: &[(u8, u16)],
) -> Result<Marks, OutOfMemory>
    requires { length word.now ≤ 65536 }
    ensures { IfOk result (λ m. m.alphabet ≡ alphabet.now) }
{
    let mut marks = Marks::new(alloc, alphabet, word.len())?;
    for (letter, label) in word {
        assert!(rt; marks.len() < marks.room());
        assert!(rt; (*letter as usize) < alphabet.letters());
        assert_eq!(rt; marks.push(Letter(*letter)), *label);
    }
    Ok(marks)
}

/// A number of processes, their letters, and a word with its labels.
type Labelled = (usize, &'static [Named], &'static [(u8, u16)]);

static LABELS: [Labelled; 4] = [
    (2, &TWO_PROCESSES, &[(0, 0), (1, 0), (2, 0), (0, 0)]),
    (1, &ONE_PROCESS, &[(0, 0), (0, 1), (0, 0)]),
    (4, &FOUR_PROCESSES, &[(2, 0), (1, 0), (0, 0), (3, 0)]),
    (
        3,
        &RING,
        &[(0, 0), (1, 0), (2, 0), (0, 1), (1, 1), (2, 1), (0, 0)],
    ),
];

/// Compares the labels of a word once more, by their places.
fn assert_labels(rt: &impl Abort, marks: &Marks, word: &[(u8, u16)]) {
    assert_eq!(rt;
        (marks.len(), marks.room(), marks.is_empty()),
        (word.len(), word.len(), false)
    );
    for (at, (_, label)) in word.iter().enumerate() {
        assert!(rt; at < marks.len());
        assert_eq!(rt; marks.label(at), *label, "{at}");
    }
}

fn assert_labelled(rt: &impl Abort, alloc: Global, case: &Labelled) -> Result<(), Fail> {
    let (n, letters, word) = *case;
    assert!(rt; word.len() <= 7);
    let alphabet = alphabet_of(alloc, n, letters)?;
    let marks = marked(rt, alloc, &alphabet, word)?;
    assert_labels(rt, &marks, word);
    drop(marks);
    drop(alphabet);
    Ok(())
}

#[test]
fn labels_of_words(rt: HostRuntime) -> Result<(), Fail> {
    for case in &LABELS {
        assert_labelled(&rt, rt.alloc(), case)?;
    }
    Ok(())
}

/// A word with its labels, and entries of its processes as the definition gives them: `latest[p][q]`,
/// `(p, q, r)` with the secondary entry, and `(p, q, r, s)` with the tertiary one.
struct Case {
    n: usize,
    letters: &'static [Named],
    word: &'static [(u8, u16)],
    latest: &'static [&'static [Option<usize>]],
    second: &'static [((usize, usize, usize), Option<usize>)],
    third: &'static [((usize, usize, usize, usize), Option<usize>)],
}

static CASES: [Case; 4] = [
    Case {
        n: 2,
        letters: &TWO_PROCESSES,
        word: &[(0, 0), (1, 0), (2, 0), (0, 0)],
        latest: &[&[Some(3), Some(2)], &[Some(2), Some(2)]],
        second: &[((0, 0, 1), Some(2)), ((1, 0, 1), Some(2))],
        third: &[((0, 0, 0, 1), Some(2))],
    },
    Case {
        n: 4,
        letters: &FOUR_PROCESSES,
        word: &[(2, 0), (1, 0), (0, 0), (3, 0)],
        latest: &[
            &[Some(3), Some(2), Some(3), Some(1)],
            &[Some(0), Some(2), Some(2), Some(1)],
            &[Some(3), Some(2), Some(3), Some(1)],
            &[Some(0), Some(1), None, Some(1)],
        ],
        second: &[
            ((0, 3, 1), Some(1)),
            ((0, 3, 0), Some(0)),
            ((0, 3, 2), None),
            ((3, 2, 0), None),
        ],
        third: &[((0, 1, 3, 0), Some(0)), ((0, 1, 3, 2), None)],
    },
    Case {
        n: 3,
        letters: &RING,
        word: &[(0, 0), (1, 0), (2, 0), (0, 1)],
        latest: &[
            &[Some(3), Some(3), Some(2)],
            &[Some(3), Some(3), Some(2)],
            &[Some(2), Some(1), Some(2)],
        ],
        second: &[((2, 1, 0), Some(0)), ((0, 2, 1), Some(1))],
        third: &[((2, 1, 0, 2), None), ((0, 2, 1, 0), Some(0))],
    },
    Case {
        n: 3,
        letters: &RING,
        word: &[],
        latest: &[&[None, None, None]],
        second: &[((0, 1, 2), None)],
        third: &[((0, 1, 2, 0), None)],
    },
];

fn assert_latest(rt: &impl Abort, n: usize, marks: &Marks, p: usize, row: &[Option<usize>])
    requires { marks.now.alphabet.processes ≡ n }
{
    for (q, event) in row.iter().enumerate() {
        assert!(rt; p < n && q < n);
        assert_eq!(rt; marks.latest(p, q), *event, "{p} {q}");
    }
}

fn assert_second(
    rt: &impl Abort,
    n: usize,
    marks: &Marks,
    entry: &((usize, usize, usize), Option<usize>),
)
    requires { marks.now.alphabet.processes ≡ n }
{
    let ((p, q, r), event) = *entry;
    assert!(rt; p < n && q < n && r < n);
    assert_eq!(rt; marks.second(p, q, r), event, "{p} {q} {r}");
}

fn assert_third(
    rt: &impl Abort,
    n: usize,
    marks: &Marks,
    entry: &((usize, usize, usize, usize), Option<usize>),
)
    requires { marks.now.alphabet.processes ≡ n }
{
    let ((p, q, r, s), event) = *entry;
    assert!(rt; p < n && q < n && r < n && s < n);
    assert_eq!(rt; marks.third(p, q, r, s), event, "{p} {q} {r} {s}");
}

fn assert_entries(rt: &impl Abort, n: usize, marks: &Marks, case: &Case)
    requires { marks.now.alphabet.processes ≡ n }
{
    for (p, row) in case.latest.iter().enumerate() {
        assert_latest(rt, n, marks, p, row);
    }
    for entry in case.second {
        assert_second(rt, n, marks, entry);
    }
    for entry in case.third {
        assert_third(rt, n, marks, entry);
    }
}

fn assert_case(rt: &impl Abort, alloc: Global, case: &Case) -> Result<(), Fail> {
    assert!(rt; case.word.len() <= 4);
    let alphabet = alphabet_of(alloc, case.n, case.letters)?;
    let marks = marked(rt, alloc, &alphabet, case.word)?;
    assert_entries(rt, alphabet.processes(), &marks, case);
    drop(marks);
    drop(alphabet);
    Ok(())
}

#[test]
fn entries_of_words(rt: HostRuntime) -> Result<(), Fail> {
    for case in &CASES {
        assert_case(&rt, rt.alloc(), case)?;
    }
    Ok(())
}
