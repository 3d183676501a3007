//! The result of a prefix search.

/// A key that is a prefix of the text: its length in bytes, and its value.
#[derive(Clone, Copy, Debug, PartialEq, Eq, Drop)]
pub struct Hit {
    pub length: usize,
    pub value: u32,
}
