//! Character categories at a position of a text.

ghost use Rattle.std.specs.Prelude.{◌≡◌, IsTrue};
ghost use Rattle.line_segmenter.specs.Segmenters.{first_category_at};
ghost use Rattle.mj_model.specs.Words.{is_place};
ghost use Rattle.word_lookup.specs.Overlays.{overlay_of};

use word_lookup::Dictionaries;

/// Returns the number of the first category of the character at the byte offset `place`, or 0 at
/// the end of the text.
pub fn category_at(dictionaries: &Dictionaries<'_>, text: &str, place: usize) -> u8
    requires { IsTrue (is_place text.now place) }
    ensures { result ≡ first_category_at (overlay_of dictionaries.now) text.now place }
{
    match text[place..].chars().next() {
        Some(first) => dictionaries.info(first).first(),
        None => 0,
    }
}
