//! Ids and costs of entries with consecutive numbers.
ghost use Rattle.std.specs.Prelude.{◌≡◌, ◌+◌, ◌<◌, ◌≤◌, Some, drop, length, map, slice_get, take};
ghost use Rattle.image_format.specs.ImageMeaning.{image_tables};
ghost use Rattle.dict_image.specs.Numbered.{numbered_tokens};
ghost use Rattle.dict_image.specs.Views.{ids_and_cost_of};

use crate::dict::Dict;
use crate::entry_range::EntryRange;
use crate::ids_and_cost::{IdsAndCost, ids_and_cost_at};
use image_format::Section::Tokens;
use std::marker::Model;

/// The ids and word costs of entries with consecutive numbers. They are located once, so each
/// lookup is cheap.
#[derive(Drop)]
pub struct EntryRow<'a> {
    tokens: &'a [u8],
}

impl<'a> Model for EntryRow<'a> {
    ghost use Rattle.std.specs.Prelude.{List};
    ghost use Rattle.dict_image.specs.declared.ids_and_cost.IdsAndCost.{IdsAndCost};
    ghost use Rattle.dict_image.specs.EntryRows.{stored_row};

    ghost Value = { List IdsAndCost };

    ghost view = { λ row. stored_row row.tokens.now };
}

impl<'a> EntryRow<'a> {
    /// Returns the ids and the cost of entry `i` of the row.
    #[inline(always)]
    pub fn get(&self, i: u32) -> IdsAndCost
        requires { i < length self.now }
        ensures { slice_get self.now i ≡ Some result }
    {
        ids_and_cost_at(self.tokens, i)
    }
}

impl Dict {
    /// Returns the ids and costs of the entries in `row`. The numbers of unknown entries follow
    /// those of the lexicon.
    #[inline(always)]
    pub fn entry_row(&self, row: EntryRange) -> EntryRow<'_>
        requires { row.first + row.count ≤ length (numbered_tokens (image_tables self.now)) }
        ensures { result ≡ map ids_and_cost_of
            (take row.count (drop row.first (numbered_tokens (image_tables self.now)))) }
    {
        let from = 16 * row.first as usize;
        let size = 16 * row.count as usize;
        EntryRow {
            tokens: &self.section(Tokens)[from..from + size],
        }
    }
}
