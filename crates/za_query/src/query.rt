/// What is asked of a text.
#[derive(Clone, Copy, Debug, PartialEq, Eq)]
pub enum Query {
    /// Of a document with an expression: the text of the job that it says.
    Build,
    /// Of a job with readings: what each process knows of each after the weave.
    News,
    /// Of a job: its frozen text after `cut` firings of the weave, or after all where there are fewer.
    Freeze { cut: u32 },
}

/// A status, and what is written.
#[derive(Debug, Drop)]
pub struct Said {
    pub status: u8,
    pub text: Vec<u8>,
}
