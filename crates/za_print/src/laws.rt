//! Laws of printed jobs.

ghost use Rattle.za_print.specs.Laws.{AreReadBack};

/// The printed form of a job isn't refused, and the job that is read from it is this job. So
/// `read_job` of what `print_job` gives answers an equal job, unless memory is refused.
pub fn printed_jobs_are_read_back()
    ensures { AreReadBack }
{}
