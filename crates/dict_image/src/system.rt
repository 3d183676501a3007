//! The parts of a system dictionary besides its lexicon.
ghost use Rattle.std.specs.Prelude.{◌≡◌, ◌<◌, Some, length, slice_get, IsTrue};
ghost use Rattle.mj_model.specs.Connection.{is_pair};
ghost use Rattle.image_format.specs.ImageMeaning.{image_tables};
ghost use Rattle.mj_model.specs.Tables.{System};
ghost use Rattle.dict_image.specs.Categories.{category_names};

use crate::categories::{from_category, name_of};
use crate::dict::Dict;
use crate::entries::Entries;
use crate::info_table::{InfoTable, plane_info};
use crate::infos::listed_at;
use image_format::Section::{Categories, Features, Infos, Tokens, UnknownIndex};
use mj_model::{Category, CharInfo};

impl Dict {
    /// Returns the cost of connecting a word with right id `prev_right` to a following word with
    /// left id `next_left`. Smaller is preferred, and BOS and EOS have id 0. (MeCab, `matrix.def`)
    #[inline(always)]
    pub fn cost(&self, prev_right: u16, next_left: u16) -> i16
        requires system { (image_tables self.now).kind ≡ System }
        requires pair { IsTrue (is_pair (image_tables self.now).sizes prev_right next_left) }
        ensures { result ≡ (image_tables self.now).connection prev_right next_left }
    {
        self.costs_before(next_left).after(usize::from(prev_right))
    }

    /// Returns the categories of a character. Runs at most a binary search, and only beyond the
    /// basic plane.
    #[inline(always)]
    pub fn info(&self, c: char) -> CharInfo
        requires { (image_tables self.now).kind ≡ System }
        ensures info { result ≡ (image_tables self.now).info c }
        ensures first { result.head < length (image_tables self.now).categories }
    {
        let mut hint = 0;
        self.info_with_hint(c, &mut hint)
    }

    /// Returns the categories of a character, for a caller that reads many in turn. `hint` is the
    /// number of the range found last, which is tried first; any value is allowed. It is not used
    /// in the basic plane.
    #[inline(always)]
    pub fn info_with_hint(&self, c: char, hint: &mut usize) -> CharInfo
        requires { (image_tables self.now).kind ≡ System }
        ensures info { result ≡ (image_tables self.now).info c }
        ensures first { result.head < length (image_tables self.now).categories }
    {
        let code = c as u32;
        match self.info_table() {
            InfoTable::InSection => listed_at(self.section(Infos), code),
            InfoTable::OfPlane(entries) => plane_info(entries, self.section(Infos), code, hint),
        }
    }

    /// Returns the number of categories.
    pub fn category_count(&self) -> usize
        ensures { result ≡ length (image_tables self.now).categories }
    {
        self.header().categories as usize
    }

    /// Returns category `i`.
    #[inline(always)]
    pub fn category(&self, i: usize) -> Category
        requires { i < length (image_tables self.now).categories }
        ensures { slice_get (image_tables self.now).categories i ≡ Some result }
    {
        self.categories()[i]
    }

    /// Returns the name of category `i`. Linear in `i`.
    pub fn category_name(&self, i: usize) -> &str
        requires { i < length (image_tables self.now).categories }
        ensures { slice_get (category_names self.now) i ≡ Some result.now }
    {
        name_of(from_category(self.section(Categories), i))
    }

    /// Returns the unknown entries of category `i`, of which there is at least one.
    #[inline(always)]
    pub fn unknown(&self, i: usize) -> Entries<'_>
        requires { i < length (image_tables self.now).categories }
        ensures unknown { result ≡ (image_tables self.now).unknown i }
        ensures some { 0 < length result }
    {
        Entries::of_list(
            self.section(UnknownIndex),
            self.section(Tokens),
            self.section(Features),
            i,
        )
    }
}
