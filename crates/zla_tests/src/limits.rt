//! Documents at the limits of their version.

use std::alloc::{AllocError, Global};

/// The first two lines, what comes before a process's number in its name, and how many processes, letters and
/// states there are.
pub(crate) struct Limits {
    pub(crate) head: &'static str,
    pub(crate) name: &'static str,
    pub(crate) processes: u32,
    pub(crate) letters: u32,
    pub(crate) states: u32,
}

fn push_letters(alloc: Global, text: &mut String, limits: &Limits) -> Result<(), AllocError> {
    let name = limits.name;
    for a in 0..limits.letters {
        let p = a.checked_rem(limits.processes).unwrap_or(0);
        text.push_str(format!(in alloc; "letter l{a} {name}{p}\n")?.as_str())?;
    }
    Ok(())
}

/// The rows of a state, all to the next one, and from the last to the first.
fn push_rows(alloc: Global, text: &mut String, limits: &Limits, q: u32) -> Result<(), AllocError> {
    let next = q.saturating_add(1).checked_rem(limits.states).unwrap_or(0);
    for a in 0..limits.letters {
        text.push_str(format!(in alloc; "row {q} l{a} {next}\n")?.as_str())?;
    }
    Ok(())
}

fn push_scripts(alloc: Global, text: &mut String, limits: &Limits) -> Result<(), AllocError> {
    let name = limits.name;
    for p in 0..limits.processes {
        text.push_str(format!(in alloc; "script {name}{p} l{p}\n")?.as_str())?;
    }
    Ok(())
}

fn push_states(alloc: Global, text: &mut String, limits: &Limits) -> Result<(), AllocError> {
    let (states, accepting) = (limits.states, limits.processes);
    text.push_str(format!(in alloc; "states {states}\nstart 0\naccept {accepting}\n")?.as_str())
}

/// Each letter belongs to one process, in turn; each script has one letter, and the state that they lead to
/// accepts.
pub(crate) fn at_the_limits(alloc: Global, limits: &Limits) -> Result<Vec<u8>, AllocError> {
    let mut text = String::from_str(alloc, limits.head)?;
    push_letters(alloc, &mut text, limits)?;
    push_states(alloc, &mut text, limits)?;
    for q in 0..limits.states {
        push_rows(alloc, &mut text, limits, q)?;
    }
    push_scripts(alloc, &mut text, limits)?;
    text.push_str("end\n")?;
    Vec::from_slice(alloc, text.as_bytes())
}
