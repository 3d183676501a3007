//! Lists of entries.

ghost use Rattle.std.specs.Prelude.{◌≡◌};
ghost use Rattle.mj_model.specs.Surfaces.{origin_in};

use crate::Origin;

/// A list of entries of the dictionaries.
#[derive(Clone, Copy, Debug, PartialEq, Eq, Drop)]
pub enum EntryList {
    /// The lexicon of the dictionary with this number.
    Lexicon(usize),
    /// The unknown entries of the system dictionary.
    Categories,
}

impl EntryList {
    /// Returns the origin of a word of this list whose entry has number `token`.
    pub fn origin(self, token: u32) -> Origin
        ensures { result ≡ origin_in self token }
    {
        match self {
            EntryList::Lexicon(dict) => Origin::Known { dict, token },
            EntryList::Categories => Origin::Unknown { token },
        }
    }
}
