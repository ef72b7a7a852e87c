//! What words of a command line ask for.

use std::alloc::{AllocError, Global};
use std::test::Fail;
use za_command::{Plan, WordsFault, read_words};

fn words(alloc: Global, texts: &[&str]) -> Result<Vec<String>, AllocError> {
    let mut words = Vec::new(alloc);
    for text in texts {
        words.push(String::from_str(alloc, text)?)?;
    }
    Ok(words)
}

fn read(alloc: Global, texts: &[&str]) -> Result<Result<Plan, WordsFault>, AllocError> {
    Ok(read_words(alloc, words(alloc, texts)?.as_slice()))
}

/// Words of each form, and what they ask for.
static FORMS: [(&[&str], Plan); 17] = [
    (&["solo"], Plan::Solo { cache: 0 }),
    (&["run"], Plan::Run { cache: 0 }),
    (&["check"], Plan::Check { cache: 0 }),
    (&["locals"], Plan::Locals { cache: 0 }),
    (&["journal"], Plan::Journal { cache: 0 }),
    (&["audit"], Plan::Audit),
    (&["build"], Plan::Build),
    (&["news"], Plan::News),
    (&["thaw"], Plan::Thaw),
    (&["freeze", "0"], Plan::Freeze { cut: 0 }),
    (&["gen", "7"], Plan::Gen { number: 7 }),
    (&["gen", "4294967295"], Plan::Gen { number: 4294967295 }),
    (&["--cache=4", "solo"], Plan::Solo { cache: 4 }),
    (&["--cache", "4", "run"], Plan::Run { cache: 4 }),
    (&["check", "--cache", "64"], Plan::Check { cache: 64 }),
    (&["locals", "--cache=0"], Plan::Locals { cache: 0 }),
    (&["journal", "--cache", "1"], Plan::Journal { cache: 1 }),
];

#[test]
fn each_form(rt: HostRuntime) -> Result<(), Fail> {
    for (texts, plan) in &FORMS {
        assert_eq!(rt; read(rt.alloc(), texts)?, Ok(*plan), "{texts:?}");
    }
    Ok(())
}

static NO_FORMS: [&[&str]; 24] = [
    &[],
    &[""],
    &["Solo"],
    &["solo", "extra"],
    &["run", "--cache", "65"],
    &["run", "--cache=65"],
    &["run", "--cache", "1", "--cache=1"],
    &["audit", "--cache", "1"],
    &["build", "--cache=0"],
    &["thaw", "2"],
    &["freeze"],
    &["freeze", "02"],
    &["gen"],
    &["gen", "07"],
    &["gen", "4294967296"],
    &["gen", "--cache=1", "2"],
    &["solo", "--cache"],
    &["solo", "--cache="],
    &["solo", "--cache", "01"],
    &["solo", "--cache", "-1"],
    &["--help"],
    &["--", "solo"],
    &["-", "solo"],
    &["solo", "--cach=1"],
];

#[test]
fn words_in_no_form(rt: HostRuntime) -> Result<(), Fail> {
    for texts in &NO_FORMS {
        let seen = read(rt.alloc(), texts)?;
        assert_eq!(rt; seen, Err(WordsFault::Usage), "{texts:?}");
    }
    Ok(())
}
