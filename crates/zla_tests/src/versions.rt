//! What the program says of documents of version 2: names, comments, repeats and the wide limits.

use crate::limits::{Limits, at_the_limits};
use crate::top::{SOLO, WHOLE, assert_run, joined};
use std::test::Fail;

/// Two processes with names, and a comment. Its script lines begin at line 16.
const NAMED: &str = "zla 2\n# two sides\nprocesses left right\nletter a left\nletter b right\n\
    letter c left right\nstates 2\nstart 0\naccept 0\nrow 0 a 1\nrow 0 b 0\nrow 0 c 0\n\
    row 1 a 0\nrow 1 b 1\nrow 1 c 1\n";

/// The same lines after a header of version 1.
const OTHER_HEADER: &str = "zla 1\n# two sides\nprocesses left right\n";

/// A head of a document, the lines after it, the status, and what is written.
type Case = (&'static str, &'static str, u8, &'static str);

static CASES: [Case; 6] = [
    (
        NAMED,
        "script left a*2 c\nscript right b c\nend\n",
        0,
        "accept\nfired 4\nbound labels 27 records 3\n",
    ),
    (
        NAMED,
        "script left c a\nscript right b\nend\n",
        3,
        "stuck\nfired 1\nbound labels 27 records 3\nprocess left fired 0 waits c\n\
            process right fired 1 ended\ntrace b\nalive\n",
    ),
    (
        NAMED,
        "script left a*0\nend\n",
        4,
        "refused line 16: bad repeat\n",
    ),
    (
        NAMED,
        "script left a*65537\nend\n",
        4,
        "refused line 16: more than 65536 script letters\n",
    ),
    (
        OTHER_HEADER,
        "",
        4,
        "refused line 2: line is out of order\n",
    ),
    (
        NAMED,
        "script left a a # two\nend\n",
        4,
        "refused line 16: no such letter\n",
    ),
];

#[test]
fn documents_of_version_2(rt: HostRuntime) -> Result<(), Fail> {
    for (head, tail, status, said) in &CASES {
        let text = joined(rt.alloc(), head, tail)?;
        assert_run(&rt, rt.alloc(), SOLO, WHOLE, text, *status, said)?;
    }
    Ok(())
}

/// 10 processes, 128 letters and 128 states, with all rows.
static LIMITS: Limits = Limits {
    head: "zla 2\nprocesses q0 q1 q2 q3 q4 q5 q6 q7 q8 q9\n",
    name: "q",
    processes: 10,
    letters: 128,
    states: 128,
};

#[test]
fn a_document_of_version_2_at_its_limits(rt: HostRuntime) -> Result<(), Fail> {
    let text = at_the_limits(rt.alloc(), &LIMITS)?;
    let said = "accept\nfired 10\nbound labels 128128 records 11\n";
    assert_run(&rt, rt.alloc(), SOLO, WHOLE, text, 0, said)
}
