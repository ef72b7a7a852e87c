/// A plain expression. An occurrence is its letter's place among the signs, counted from 1.
#[derive(Debug, Drop)]
pub(crate) enum PlainTree {
    One,
    Occurrence(u8),
    Sequence(Box<PlainTree>, Box<PlainTree>),
    Or(Box<PlainTree>, Box<PlainTree>),
    Star(Box<PlainTree>),
}

/// A form.
#[derive(Debug, Drop)]
pub(crate) enum FormTree {
    Part(PlainTree),
    And(Box<FormTree>, Box<FormTree>),
    Not(Box<FormTree>),
}
