//! The words of one surface.

ghost use Rattle.std.specs.Prelude.{◌≡◌, ◌+◌, ◌<◌, ◌≤◌, Some, length, slice_get};
ghost use Rattle.image_format.specs.ImageMeaning.{image_tables};
ghost use Rattle.dict_image.specs.Fitting.{AreFitting};
ghost use Rattle.dict_image.specs.Numbered.{numbered_tokens};
ghost use Rattle.mj_model.specs.Surfaces.{IsWhole, IsWordOf};
ghost use Rattle.word_lookup.specs.Overlays.{overlay_of};
ghost use Rattle.word_lookup.specs.Surfaces.{surface_words, tokens_of, words_among, word_with as word_of_surface};

use crate::dictionaries::Dictionaries;
use dict_image::{Dict, EntryRange, EntryRow, IdsAndCost};
use mj_model::Word;
use mj_model::paths::{EntryList, Surface};
use std::marker::Model;

/// The words of a surface, whose entries were looked up once. Each word is read from its entry.
#[derive(Drop)]
pub struct SurfaceWords<'a> {
    surface: Surface,
    entries: EntryRow<'a>,
}

impl<'a> Model for SurfaceWords<'a> {
    ghost use Rattle.std.specs.Prelude.{◌+◌, ◌≤◌, ◌^◌, List, length};
    ghost use Rattle.mj_model.specs.declared.word.Word.{Word};
    ghost use Rattle.word_lookup.specs.Surfaces.{words_by_ids};

    ghost Value = { List Word };

    ghost view = { λ it. words_by_ids it.surface it.surface.first it.entries };

    ghost invariant = { λ it. it.surface.first + length it.entries ≤ 2 ^ 32 };
}

impl<'a> SurfaceWords<'a> {
    /// Returns the words of a surface whose entries belong to `dict`.
    pub(crate) fn among(dict: &'a Dict, surface: Surface) -> SurfaceWords<'a>
        requires fits { AreFitting (image_tables dict.now) }
        requires there { surface.first + surface.count
            ≤ length (numbered_tokens (image_tables dict.now)) }
        ensures { result ≡ words_among (numbered_tokens (image_tables dict.now)) surface }
    {
        let row = EntryRange {
            first: surface.first,
            count: surface.count,
        };
        SurfaceWords {
            surface,
            entries: dict.entry_row(row),
        }
    }

    /// Returns word `i` of the surface, counted from 0.
    pub fn word(&self, i: u32) -> Word
        requires { i < length self.now }
        ensures { slice_get self.now i ≡ Some result }
    {
        let token = self.surface.first + i;
        word_with(&self.surface, token, self.entries.get(i))
    }
}

impl<'a> Dictionaries<'a> {
    /// Returns word `i` of a surface of these dictionaries, read from its entry.
    pub fn word(&self, surface: &Surface, i: u32) -> Word
        requires surface { IsWhole (surface_words (overlay_of self.now)) surface.now }
        requires within { i < surface.now.count }
        ensures { slice_get (surface_words (overlay_of self.now) surface.now) i ≡ Some result }
    {
        self.words_of(surface).word(i)
    }

    /// Returns word `i` of a surface of these dictionaries as a surface of its own.
    pub fn single_word_surface(&self, surface: &Surface, i: u32) -> Surface
        requires surface { IsWhole (surface_words (overlay_of self.now)) surface.now }
        requires within { i < surface.now.count }
        ensures { IsWordOf (surface_words (overlay_of self.now)) surface.now i result }
    {
        Surface {
            first: surface.first + i,
            count: 1,
            ..*surface
        }
    }

    /// Returns the words of a surface of these dictionaries.
    pub fn words_of(&self, surface: &Surface) -> SurfaceWords<'a>
        requires { IsWhole (surface_words (overlay_of self.now)) surface.now }
        ensures { result ≡ surface_words (overlay_of self.now) surface.now }
    {
        SurfaceWords::among(self.listed(surface.list), *surface)
    }

    /// Returns the dictionary of a list that has entries.
    fn listed(&self, list: EntryList) -> &'a Dict
        requires { 0 < length (tokens_of (overlay_of self.now) list) }
        ensures tokens { tokens_of (overlay_of self.now) list
            ≡ numbered_tokens (image_tables result.now) }
        ensures fits { AreFitting (image_tables result.now) }
    {
        match list {
            EntryList::Lexicon(number) => self.numbered(number),
            EntryList::Categories => self.system,
        }
    }
}

/// Returns the word of a surface whose entry has number `token` and these ids and cost.
fn word_with(surface: &Surface, token: u32, ids: IdsAndCost) -> Word
    ensures { result ≡ word_of_surface surface.now token ids }
{
    Word {
        place: surface.place,
        start: surface.start,
        end: surface.end,
        left: ids.left,
        right: ids.right,
        cost: ids.cost,
        origin: surface.list.origin(token),
    }
}
