//! The connection costs of one left id.
ghost use Rattle.std.specs.Prelude.{IfSome, ◌≡◌, ◌*◌, ◌<◌, Some, length, slice_get};
ghost use Rattle.image_format.specs.ImageBytes.{header_of, section as section_of};
ghost use Rattle.image_format.specs.ImageMeaning.{image_tables};
ghost use Rattle.image_format.specs.ImageSections.{AreCosts};
ghost use Rattle.mj_model.specs.Tables.{System};
ghost use Rattle.dict_image.specs.CostRows.{AreCostsBefore, AreStoredBefore, IsCostRow, IsCachedRow, IsSectionRow, costs_in_row, costs_in_section, stored_in};

use crate::cost_table::CostTable;
use crate::costs::cost_at;
use crate::dict::Dict;
use crate::rows::row_of;
use image_format::Section::Costs;
use mj_model::MatrixSizes;
use std::marker::Model;

/// The costs of connecting any word to a following word with one left id, indexed by the right id
/// of the first. The row is located once, so each lookup is cheap.
#[derive(Drop)]
pub struct CostsBefore<'a> {
    row: CostRow<'a>,
}

impl<'a> Model for CostsBefore<'a> {
    ghost use Rattle.std.specs.Prelude.{ℤ, List};
    ghost use Rattle.dict_image.specs.CostRows.{IsCostRow, costs_in_row};

    ghost Value = { List ℤ };

    ghost view = { λ it. costs_in_row it.row };

    ghost invariant = { λ it. IsCostRow it.row };
}

/// The storage of the costs of one left id.
#[derive(Drop)]
pub(crate) enum CostRow<'a> {
    /// A row of the copied table.
    InRow(&'a [i16]),
    /// Section 1, and a cached row with some of the costs.
    Cached(CachedRow<'a>),
}

/// The costs of one left id in section 1, which has a table of these sizes.
#[derive(Clone, Copy, Drop)]
pub(crate) struct SectionRow<'a> {
    pub costs: &'a [u8],
    pub sizes: MatrixSizes,
    pub left: u32,
}

/// The costs of one left id in section 1, with their cached row. `numbers` has for each right id
/// its index in that row, or an index after the row's end.
#[derive(Clone, Copy, Drop)]
pub(crate) struct CachedRow<'a> {
    pub cached: &'a [i16],
    pub numbers: &'a [u16],
    pub section: SectionRow<'a>,
}

impl<'a> SectionRow<'a> {
    /// Returns the costs of left id `left` in a section with a table of these sizes.
    #[inline(always)]
    fn new(costs: &'a [u8], sizes: MatrixSizes, left: u16) -> SectionRow<'a>
        requires costs { AreCosts sizes costs.now }
        requires left { left < sizes.left }
        ensures row { IsSectionRow result }
        ensures costs { result.costs.now ≡ costs.now }
        ensures sizes { result.sizes ≡ sizes }
        ensures left { result.left ≡ left }
    {
        SectionRow {
            costs,
            sizes,
            left: u32::from(left),
        }
    }
}

impl<'a> CostsBefore<'a> {
    /// Returns the cost of connecting a word with right id `right` to a following word with the
    /// left id of this row.
    #[inline(always)]
    pub fn after(&self, right: usize) -> i16
        requires { right < length self.now }
        ensures { slice_get self.now right ≡ Some result }
    {
        match &self.row {
            CostRow::InRow(costs) => cost_in_row(costs, right),
            CostRow::Cached(row) => large_matrix_cost(*row, right),
        }
    }
}

/// Returns the cost of a right id from a row.
#[inline(always)]
fn cost_in_row(costs: &[i16], right: usize) -> i16
    requires { right < length costs.now }
    ensures { slice_get costs.now right ≡ Some result }
{
    costs[right]
}

/// Returns the cost of a right id, from the cached row if it is there.
#[inline(always)]
fn large_matrix_cost(row: CachedRow<'_>, right: usize) -> i16
    requires row { IsCachedRow row }
    requires there { right < length (costs_in_section row.section) }
    ensures { slice_get (costs_in_section row.entry.section) right ≡ Some result }
{
    if let Some(cost) = cached_cost(row, right) {
        return cost;
    }
    cost_in_section(row.section, right)
}

/// Returns the cost of a right id from the cached row, or None if it is not there.
#[inline(always)]
fn cached_cost(row: CachedRow<'_>, right: usize) -> Option<i16>
    requires row { IsCachedRow row }
    requires there { right < length (costs_in_section row.section) }
    ensures { IfSome result (λ cost. cost ≡ stored_in row.entry.section right) }
{
    let number = row.numbers[right];
    let cost = *row.cached.get(usize::from(number))?;
    Some(cost)
}

/// Returns the cost of a right id from section 1.
#[inline(always)]
fn cost_in_section(row: SectionRow<'_>, right: usize) -> i16
    requires row { IsSectionRow row }
    requires there { right < length (costs_in_section row) }
    ensures { slice_get (costs_in_section row.entry) right ≡ Some result }
{
    cost_at(row.costs, row.sizes, right as u32, row.left)
}

impl Dict {
    /// Returns the costs of connecting words to a following word with left id `left`. Smaller is
    /// preferred, and EOS has left id 0. (MeCab, `matrix.def`)
    #[inline(always)]
    pub fn costs_before(&self, left: u16) -> CostsBefore<'_>
        requires system { (image_tables self.now).kind ≡ System }
        requires left { left < (image_tables self.now).sizes.left }
        ensures { AreCostsBefore (image_tables self.now) left result }
    {
        CostsBefore {
            row: self.row_before(left),
        }
    }

    /// Returns the storage of the costs of one left id. Does not read section 1 if they are in a
    /// row.
    #[inline(always)]
    fn row_before(&self, left: u16) -> CostRow<'_>
        requires system { (image_tables self.now).kind ≡ System }
        requires left { left < (image_tables self.now).sizes.left }
        ensures row { IsCostRow result }
        ensures costs { AreStoredBefore (header_of self.now).sizes (section_of self.now 1) left
            (costs_in_row result) }
    {
        match self.cost_table() {
            CostTable::OfUser => CostRow::InRow(&[]),
            CostTable::InRows(rows) => {
                let width = self.header().sizes.right as usize;
                CostRow::InRow(row_of(rows, width, usize::from(left)))
            }
            CostTable::Cache(cached) => cached.row(self.section_row(left)),
        }
    }

    /// Returns the costs of one left id in section 1.
    #[inline(always)]
    fn section_row(&self, left: u16) -> SectionRow<'_>
        requires system { (image_tables self.now).kind ≡ System }
        requires left { left < (image_tables self.now).sizes.left }
        ensures row { IsSectionRow result }
        ensures costs { result.costs.now ≡ section_of self.now 1 }
        ensures sizes { result.sizes ≡ (header_of self.now).sizes }
        ensures left { result.left ≡ left }
    {
        SectionRow::new(self.section(Costs), self.header().sizes, left)
    }
}
