//! Laws of generated jobs.

ghost use Rattle.za_gen.specs.Laws.{AreJobs, AreClosed, AreAccepted, FireAll, AreFewLetters};

/// For each number the generated job is a job with a trace-closed language, and its answer is accept. Its
/// weave has all 20,000 letters that were drawn, and its scripts have at most 40,000 letters.
pub fn generated_jobs_are_accepted()
    ensures jobs { AreJobs }
    ensures closed { AreClosed }
    ensures accepted { AreAccepted }
    ensures all { FireAll }
    ensures few { AreFewLetters }
{}
