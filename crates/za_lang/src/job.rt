use crate::lang::Lang;
use za_script::Scripts;

/// A regular language, and a script for each process of its alphabet. Calls that take a job have the
/// condition that its scripts fit its alphabet, and every job that is read meets it.
#[derive(Debug, Drop)]
pub struct Job {
    pub lang: Lang,
    pub scripts: Scripts,
}
