//! The sections of an image.
ghost use Rattle.std.specs.Prelude.{◌≡◌, ◌≤◌};
ghost use Rattle.image_format.specs.Sections.{number_of};

/// A section of an image, by its contents. Sections 1 to 4 are empty in a user dictionary. (The
/// layout is this project's own)
#[derive(Clone, Copy, Debug, PartialEq, Eq, Drop)]
pub enum Section {
    /// Connection costs, 2 bytes each.
    Costs,
    /// The character categories with their names.
    Categories,
    /// The categories of each code point.
    Infos,
    /// The number of the first unknown token of each category.
    UnknownIndex,
    /// The surfaces, each with the number of its group.
    Keys,
    /// The number of the first token of each group.
    Groups,
    /// Tokens of 16 bytes.
    Tokens,
    /// The features of the tokens.
    Features,
}

impl Section {
    /// Returns the number of the section, from 1 to 8.
    pub fn number(self) -> usize
        ensures number { result ≡ number_of self }
        ensures from_one { 1 ≤ result }
        ensures to_eight { result ≤ 8 }
    {
        match self {
            Section::Costs => 1,
            Section::Categories => 2,
            Section::Infos => 3,
            Section::UnknownIndex => 4,
            Section::Keys => 5,
            Section::Groups => 6,
            Section::Tokens => 7,
            Section::Features => 8,
        }
    }
}
