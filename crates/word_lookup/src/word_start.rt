//! The start of the words of a position, after its blanks.

ghost use Rattle.std.specs.Prelude.{◌≡◌, ◌+◌, ◌<◌, ◌^◌, length, drop, IsTrue, IsUtf8};
ghost use Rattle.std.proofs.Props.{props};
ghost use Rattle.mj_model.specs.Words.{is_place};

use dict_image::EntryRange;
use mj_model::paths::{EntryList, Surface};

/// The start of the surfaces of a position's words, in bytes, and the text from there on.
#[derive(Clone, Copy)]
pub struct WordStart<'a> {
    pub place: usize,
    /// The position after the blanks at `place`.
    pub start: usize,
    pub text: &'a str,
    pub rest: &'a str,
    ghost is_text: { IsUtf8 rest.now } by { Prim.hlevel props },
    ghost there: { IsTrue (is_place text.now start) } by { Prim.hlevel props },
    ghost rest_is: { rest.now ≡ drop start text.now } by { Prim.hlevel props },
    ghost fits: { start + length rest.now < 2 ^ 64 } by { Prim.hlevel props },
}

impl WordStart<'_> {
    ghost use Rattle.word_lookup.specs.SurfacesHere.{surface_here};

    /// Returns the surface from this position to `end` with the entries `row` of a list.
    #[inline(always)]
    pub(crate) fn surface(self, list: EntryList, row: EntryRange, end: usize) -> Surface
        ensures { result ≡ surface_here self.entry list row end }
    {
        Surface {
            list,
            first: row.first,
            count: row.count,
            place: self.place,
            start: self.start,
            end,
        }
    }
}

/// Returns the part of a text from position `place` on.
#[inline(always)]
pub(crate) fn suffix(text: &str, place: usize) -> &str
    requires { IsTrue (is_place text.now place) }
    ensures { result.now ≡ drop place text.now }
{
    &text[place..]
}
