/// What a worker passes before each of its steps. A test holds workers there.
pub trait Gate: Sync {
    /// Called by the worker of process `p` before its step number `at`, counted from 0.
    fn before(&self, p: usize, at: usize);
}

/// A gate that holds nobody: it returns at once.
pub struct OpenGate;

impl Gate for OpenGate {
    fn before(&self, _p: usize, _at: usize) {}
}
