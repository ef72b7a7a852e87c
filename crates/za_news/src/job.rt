use crate::readings::Readings;
use za_lang::Job;

/// A job, and for each of its processes the numbers that its events write.
#[derive(Debug, Drop)]
pub struct NewsJob {
    pub job: Job,
    pub readings: Readings,
}
