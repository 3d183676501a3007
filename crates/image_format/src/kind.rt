//! The kinds of dictionaries.
ghost use Rattle.std.specs.Prelude.{◌≡◌, ◌↔◌, IsTrue};
ghost use Rattle.image_format.specs.DictKinds.{IsKind, kind_numbered, number_of_kind};

/// The kind of a dictionary, as the header stores it. (The numbers are this project's own)
#[derive(Clone, Copy, Debug, PartialEq, Eq, Drop)]
pub enum DictKind {
    /// A system dictionary: 0.
    System,
    /// A user dictionary, which has a lexicon alone: 1.
    User,
    /// Any other number. No well-formed image has it.
    Other(u32),
}

impl DictKind {
    /// Returns the kind that a header stores as `number`.
    pub fn of_number(number: u32) -> DictKind
        ensures { result ≡ kind_numbered number }
    {
        match number {
            0 => DictKind::System,
            1 => DictKind::User,
            other => DictKind::Other(other),
        }
    }

    /// Returns the number that a header stores for the kind.
    pub fn number(self) -> u32
        ensures { result ≡ number_of_kind self }
    {
        match self {
            DictKind::System => 0,
            DictKind::User => 1,
            DictKind::Other(number) => number,
        }
    }

    /// Returns whether the kind is `System` or `User`.
    pub fn is_known(self) -> bool
        ensures { IsTrue result ↔ IsKind self }
    {
        !matches!(self, DictKind::Other(_))
    }
}
