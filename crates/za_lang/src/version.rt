/// The version of a document. It decides the limits of documents, the words of their lines and the tests.
#[derive(Clone, Copy, Debug, PartialEq, Eq)]
pub enum Version {
    One,
    Two,
}
