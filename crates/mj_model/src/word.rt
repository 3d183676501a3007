//! A word of a text.

/// The dictionary entry that a word comes from.
#[derive(Clone, Copy, Debug, PartialEq, Eq, Drop)]
pub enum Origin {
    /// An entry of a lexicon. Dictionary 0 is the system dictionary, and `token` is the number of
    /// the entry in its dictionary.
    Known { dict: usize, token: u32 },
    /// An unknown entry of the system dictionary, by its number there.
    Unknown { token: u32 },
}

/// A word of a text, which a path may contain.
///
/// `place`, `start` and `end` are byte offsets into the text. The blanks before the word lie from
/// `place` to `start`, and its surface from `start` to `end`. `left` and `right` are context ids.
/// `cost` is the word cost; lower costs are preferred. (MeCab, dic-detail)
#[derive(Clone, Copy, Debug, PartialEq, Eq, Drop)]
pub struct Word {
    pub place: usize,
    pub start: usize,
    pub end: usize,
    pub left: u16,
    pub right: u16,
    pub cost: i16,
    pub origin: Origin,
}
