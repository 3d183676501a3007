//! The first character of a text.

ghost use Rattle.std.specs.Prelude.{◌≡◌, chars};
ghost use Rattle.word_lookup.specs.FirstCharacters.{first_in};
ghost use Rattle.word_lookup.specs.Overlays.{overlay_of};

use crate::dictionaries::Dictionaries;
use mj_model::CharInfo;

/// The first character of a text, its length in bytes, and its categories in a system dictionary.
#[derive(Clone, Copy, Debug, Drop)]
pub struct FirstCharacter {
    pub character: char,
    pub bytes: usize,
    pub info: CharInfo,
}

impl<'a> Dictionaries<'a> {
    /// Returns the first character of a text, or `None` if it is empty.
    ///
    /// `range` is a hint: the index of the code point range that was found last. Any value is
    /// valid.
    #[inline(always)]
    pub(crate) fn first_with_hint(&self, text: &str, range: &mut usize) -> Option<FirstCharacter>
        ensures { result ≡ first_in (overlay_of self.now).system.info (chars text.now) }
    {
        let mut left = text.chars();
        match left.next() {
            Some(character) => Some(FirstCharacter {
                character,
                bytes: text.len() - left.as_str().len(),
                info: self.system.info_with_hint(character, range),
            }),
            None => None,
        }
    }
}
