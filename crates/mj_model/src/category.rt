//! Character categories.

ghost use Rattle.std.specs.Prelude.{◌≡◌};
ghost use Rattle.mj_model.specs.Categories.{shares};

/// The rules for unknown words of a character category. (MeCab, `char.def`)
///
/// `invoke`: unknown words are added even if the lexicon has words at the position. `group`: a
/// whole run of characters of the category is one word. `length`: words of 1 to `length` characters
/// are added; 0 to 15.
#[derive(Clone, Copy, Debug, PartialEq, Eq, Drop)]
pub struct Category {
    pub invoke: bool,
    pub group: bool,
    pub length: u8,
}

/// The categories of a character. Bit i of `bits` is set if the character has category i, and
/// `head` is the category listed first.
#[derive(Clone, Copy, Debug, PartialEq, Eq, Drop)]
pub struct CharInfo {
    pub bits: u32,
    pub head: u8,
}

impl CharInfo {
    /// Returns the category whose unknown entries are used. (MeCab, `char.def`)
    pub fn first(self) -> u8
        ensures { result ≡ self.head }
    {
        self.head
    }

    /// Returns whether the two have a category in common.
    pub fn shares(self, other: CharInfo) -> bool
        ensures { result ≡ shares self other }
    {
        self.bits & other.bits != 0
    }
}
