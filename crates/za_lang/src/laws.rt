//! Laws over the definitions alone.

ghost use Rattle.za_lang.specs.Laws.{DocumentsAreJobs};

/// A text that isn't refused is a job.
#[tactic(auto, using(crate::proofs::Sound::documents_are_jobs))]
pub fn documents_are_jobs()
    ensures { DocumentsAreJobs }
{}
