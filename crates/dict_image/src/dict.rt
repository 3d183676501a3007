//! A dictionary: the bytes of a well-formed image, and its lookup tables.
ghost use Rattle.std.specs.Prelude.{◌≡◌, ℕ, ◌<◌, List, IfOk};
ghost use Rattle.dict_image.specs.Fitting.{AreFitting};
ghost use Rattle.dict_image.specs.LookupState.{IsCostTableIn, IsInfoTableIn};
ghost use Rattle.dict_image.specs.ImageKeys.{IsKeyTableIn, cells_of_keys, group_under, hits_under};
ghost use Rattle.dict_image.specs.KeyHits.{hits_view};
ghost use Rattle.dict_image.specs.Views.{token_view};
ghost use Rattle.image_format.specs.ImageBytes.{all_tokens, header_of, section as section_of};
ghost use Rattle.image_format.specs.ImageFaults.{IsWellFormed};
ghost use Rattle.image_format.specs.ImageMeaning.{image_tables, image_token, tokens_in};
ghost use Rattle.image_format.specs.ImageSections.{stored_cells};
ghost use Rattle.image_format.specs.Sections.{number_of};
ghost use Rattle.dict_image.specs.Validation.Outlines.{IsImage, IsOutline};
ghost use Rattle.mj_model.specs.Overlays.{is_user};

use crate::cost_table::CostTable;
use crate::entries::Entries;
use crate::entry_ref::{EntryRef, token_at};
use crate::info_table::InfoTable;
use crate::key_hits::KeyHits;
use crate::key_table::KeyTable;
use crate::listed_keys::ListedKeys;
use crate::lookup_tables::{LookupTables, lookup_tables_of};
use crate::validation::{Keys, Outline};
use image_format::Section::{Features, Groups, Tokens};
use image_format::borrowed::ImageBytes;
use image_format::{DictKind, Header, ImageCells, Section, section_bytes};
use mj_model::cell_walk::{CellRead, get, prefixes};
use mj_model::{Category, MatrixSizes};
use std::alloc::{AllocError, Global};
use std::marker::Model;

/// A dictionary, either system or user. It holds the bytes of its image, owned or borrowed, and
/// reads most of it in place.
#[derive(Drop)]
pub struct Dict {
    bytes: ImageBytes,
    outline: Outline,
    tables: LookupTables,
}

impl Model for Dict {
    ghost use Rattle.std.specs.Prelude.{ℕ, List};
    ghost use Rattle.dict_image.specs.Fitting.{AreFitting};
    ghost use Rattle.dict_image.specs.LookupState.{AreLookupTables};
    ghost use Rattle.dict_image.specs.Validation.Outlines.{IsOutline};

    ghost Value = { List ℕ };

    ghost view = { λ d. d.bytes };

    ghost invariant = { λ d. record {
      outline : IsOutline d.bytes d.outline;
      tables : AreLookupTables d.bytes d.tables;
    } };
}

impl Dict {
    /// Returns the dictionary of a well-formed image with its outline. Allocates the lookup tables.
    pub(crate) fn over(
        alloc: Global,
        bytes: ImageBytes,
        outline: Outline,
    ) -> Result<Dict, AllocError>
        requires { IsOutline bytes outline }
        ensures { IfOk result (λ dict. dict ≡ bytes) }
    {
        let tables = lookup_tables_of(alloc, bytes.as_slice(), &outline)?;
        Ok(Dict {
            bytes,
            outline,
            tables,
        })
    }

    /// Returns whether this is a user dictionary, which has only a lexicon.
    pub fn is_user(&self) -> bool
        ensures kind { result ≡ is_user (image_tables self.now).kind }
        ensures formed { IsWellFormed self.now }
    {
        matches!(self.header().kind, DictKind::User)
    }

    /// Returns the numbers of right ids and left ids of the connection table. Its contract also
    /// states that the tables satisfy the assumptions of the search.
    pub fn matrix_sizes(&self) -> MatrixSizes
        ensures sizes { result ≡ (image_tables self.now).sizes }
        ensures fitting { AreFitting (image_tables self.now) }
    {
        self.tables_fit();
        self.header().sizes
    }

    /// Returns the number of lexicon entries. They are numbered from 0; the numbers of unknown
    /// entries follow.
    pub fn entry_count(&self) -> u32
        ensures { result ≡ (header_of self.now).tokens }
    {
        self.header().tokens
    }

    /// Returns entry `i`, as numbered by `EntryRef::token` in the results of `entries`, `prefixes`
    /// and `unknown`.
    pub fn token(&self, i: u32) -> EntryRef<'_>
        requires { i < all_tokens (header_of self.now) }
        ensures { token_view result ≡ image_token self.now i }
    {
        token_at(self.section(Tokens), self.section(Features), i)
    }

    /// Returns the header fields.
    #[inline(always)]
    pub(crate) fn header(&self) -> &Header
        ensures numbers { result.now ≡ header_of self.now }
        ensures formed { IsImage self.now }
    {
        &self.outline.header
    }

    /// Returns the bytes of a section.
    #[inline(always)]
    pub(crate) fn section(&self, section: Section) -> &[u8]
        ensures section { result.now ≡ section_of self.now (number_of section) }
        ensures formed { IsImage self.now }
    {
        section_bytes(self.bytes.as_slice(), &self.outline.ends, section)
    }

    /// Returns the table of connection costs.
    #[inline(always)]
    pub(crate) fn cost_table(&self) -> &CostTable
        ensures table { IsCostTableIn self.now result.now }
        ensures formed { IsImage self.now }
    {
        &self.tables.costs
    }

    /// Replaces the table of connection costs.
    pub(crate) fn set_cost_table(&mut self, table: CostTable)
        requires { IsCostTableIn self.old table }
        ensures { self.new ≡ self.old }
    {
        self.tables.costs = table;
    }

    /// Returns the table of the categories of code points.
    #[inline(always)]
    pub(crate) fn info_table(&self) -> &InfoTable
        ensures table { IsInfoTableIn self.now result.now }
        ensures formed { IsImage self.now }
    {
        &self.tables.infos
    }

    /// Returns the categories, by their numbers.
    #[inline(always)]
    pub(crate) fn categories(&self) -> &[Category]
        ensures categories { result.now ≡ (image_tables self.now).categories }
        ensures formed { IsImage self.now }
    {
        &self.tables.categories
    }

    /// Returns the key table for exact lookup.
    #[inline(always)]
    fn key_table(&self) -> KeyTable<'_>
        ensures table { IsKeyTableIn self.now result }
        ensures formed { IsImage self.now }
    {
        match &self.outline.keys {
            Keys::Listed(starts) => {
                KeyTable::Listed(ListedKeys::new(self.section(Section::Keys), starts))
            }
            Keys::Cells => KeyTable::Cells,
        }
    }

    /// Returns the cells of the double array. Not meaningful in layout 1, which lists its keys.
    #[inline(always)]
    fn cells(&self) -> ImageCells<'_>
        ensures { result.bytes.now ≡ section_of self.now 5 }
    {
        ImageCells {
            bytes: self.section(Section::Keys),
        }
    }

    /// Returns the number of the group of the surface `key`, if the lexicon has it.
    pub(crate) fn group_of(&self, key: &[u8]) -> Option<u32>
        ensures group { result ≡ group_under self.now key.now }
        ensures formed { IsImage self.now }
    {
        match self.key_table() {
            KeyTable::Listed(keys) => keys.number_of(key),
            KeyTable::Cells => get(self, key),
        }
    }

    /// Returns the keys that are prefixes of `text`, with their groups.
    #[inline(always)]
    pub(crate) fn hits<'a>(&'a self, text: &'a [u8]) -> KeyHits<'a>
        ensures hits { (hits_view result).hits ≡ hits_under self.now text.now }
        ensures cells { (hits_view result).cells ≡ cells_of_keys self.now }
        ensures text { (hits_view result).text ≡ text.now }
        ensures walked { (hits_view result).walked ≡ 0 }
        ensures formed { IsImage self.now }
    {
        match self.key_table() {
            KeyTable::Listed(keys) => KeyHits::Listed(keys.hits(text)),
            KeyTable::Cells => KeyHits::Cells(prefixes(self.cells(), text)),
        }
    }

    /// Returns the entries of group `i`.
    #[inline(always)]
    pub(crate) fn group(&self, i: u32) -> Entries<'_>
        requires { i < (header_of self.now).groups }
        ensures { result ≡ tokens_in (section_of self.now 7) (section_of self.now 8)
            (section_of self.now 6) i }
    {
        Entries::of_list(
            self.section(Groups),
            self.section(Tokens),
            self.section(Features),
            i as usize,
        )
    }
}

/// The double array of layouts 2 and 3, which maps each surface to its group. In layout 1 the cells
/// have no meaning.
impl CellRead for Dict {
    ghost cells = { λ bytes. stored_cells (section_of bytes 5) };

    #[inline(always)]
    fn len(&self) -> usize {
        self.section(Section::Keys).len() / 8
    }

    #[inline(always)]
    fn cell(&self, i: usize) -> (i32, i32) {
        self.cells().cell(i)
    }
}
