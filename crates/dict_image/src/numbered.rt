//! Entries by their numbers.
ghost use Rattle.std.specs.Prelude.{◌≡◌, ◌==◌, find, map, option_map};
ghost use Rattle.image_format.specs.ImageMeaning.{image_tables};
ghost use Rattle.dict_image.specs.Numbered.{unknown_tokens};
ghost use Rattle.dict_image.specs.Views.{token_view};

use crate::dict::Dict;
use crate::entry_ref::EntryRef;

impl Dict {
    /// Returns the lexicon entry with number `i`, if there is one.
    pub fn known_token(&self, i: u32) -> Option<EntryRef<'_>>
        ensures { option_map token_view result
            ≡ find (λ t. t.number == i) (map (λ e. e.token) (image_tables self.now).lexicon) }
    {
        let count = self.header().tokens;
        if i < count { Some(self.token(i)) } else { None }
    }

    /// Returns the unknown entry with number `i`, if there is one. These numbers follow those of
    /// the lexicon.
    pub fn unknown_token(&self, i: u32) -> Option<EntryRef<'_>>
        ensures { option_map token_view result
            ≡ find (λ t. t.number == i) (unknown_tokens (image_tables self.now)) }
    {
        let known = self.header().tokens;
        if known <= i && i - known < self.header().unknown {
            Some(self.token(i))
        } else {
            None
        }
    }
}
