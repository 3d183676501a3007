//! Lookup in the lexicon.
ghost use Rattle.std.specs.Prelude.{◌≡◌};
ghost use Rattle.image_format.specs.ImageMeaning.{entries_under, image_tables};
ghost use Rattle.dict_image.specs.ImageKeys.{cells_of_keys};
ghost use Rattle.dict_image.specs.Prefixes.{prefixes_in};

use crate::dict::Dict;
use crate::entries::Entries;
use crate::hits::Prefixes;

impl Dict {
    /// Returns the entries with the surface `key`, in the order of their numbers. The compiler
    /// numbers them in the order of their source lines.
    pub fn entries(&self, key: &str) -> Entries<'_>
        ensures { result ≡ entries_under key.now (image_tables self.now).lexicon }
    {
        match self.group_of(key.as_bytes()) {
            Some(group) => self.group(group),
            None => Entries::none(),
        }
    }

    /// Returns the surfaces that are prefixes of `text`, the shortest first: their lengths in
    /// bytes, and their entries. (Common prefix search)
    #[inline(always)]
    pub fn prefixes<'a>(&'a self, text: &'a str) -> Prefixes<'a>
        ensures prefixes { result.prefixes ≡ prefixes_in text.now (image_tables self.now).lexicon }
        ensures cells { result.cells ≡ cells_of_keys self.now }
        ensures text { result.text ≡ text.now }
        ensures walked { result.walked ≡ 0 }
    {
        Prefixes::new(self, text.as_bytes())
    }
}
