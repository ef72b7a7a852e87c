//! Texts of verdicts.

use samples::{Named, alphabet_of};
use std::test::Fail;
use za_alpha::Letter;
use za_audit::Audit;
use za_min::Hope;
use za_report::audit_text;
use za_script::Answer;

/// Two letters of one process.
static LETTERS: [Named; 2] = [(b"a", &[0]), (b"b", &[0])];

#[test]
fn verdicts_have_texts(rt: HostRuntime) -> Result<(), Fail> {
    let alloc = rt.alloc();
    let alphabet = alphabet_of(alloc, 1, &LETTERS)?;
    assert!(rt; alphabet.letters() == 2);
    let defined = Answer::Accept;
    for (audit, text) in [
        (Audit::Yes { hope: None }, b"audit yes\n".as_slice()),
        (
            Audit::Yes {
                hope: Some(Hope::Alive),
            },
            b"audit yes alive\n".as_slice(),
        ),
        (
            Audit::Yes {
                hope: Some(Hope::Dead),
            },
            b"audit yes dead\n".as_slice(),
        ),
        (
            Audit::BadLetter { at: 0 },
            b"audit bad letter 0\n".as_slice(),
        ),
        (Audit::BadLabel { at: 3 }, b"audit bad label 3\n".as_slice()),
        (
            Audit::WrongAnswer { defined },
            b"audit wrong answer accept\n".as_slice(),
        ),
    ] {
        assert!(rt; audit_text(alloc, &alphabet, &audit)?.as_slice() == text);
    }
    let left = Audit::NotMaximal { letter: Letter(1) };
    assert!(rt;
        audit_text(alloc, &alphabet, &left)?.as_slice() == b"audit not maximal b\n".as_slice()
    );
    Ok(())
}
