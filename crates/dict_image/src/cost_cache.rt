//! A cache of the connection costs between some ids.
ghost use Rattle.std.specs.Prelude.{◌≡◌, ◌*◌, ◌<◌, IfOk, length};
ghost use Rattle.image_format.specs.ImageSections.{AreCosts};
ghost use Rattle.dict_image.specs.CostRows.{IsCostRow, IsSectionRow, costs_in_row, costs_in_section};
ghost use Rattle.dict_image.specs.Columns.{IsColumnSet};
ghost use Rattle.dict_image.specs.Rows.{AreRows};
ghost use Rattle.dict_image.specs.CostCache.{IsCostCache, IsCacheRow, cost_after, cost_between};
ghost use Rattle.dict_image.specs.NumberedIds.{AreBelow};
ghost use Rattle.dict_image.specs.ContextIds.{AreOfSizes};

use crate::context_ids::ContextIds;
use crate::costs::cost_at;
use crate::costs_before::{CachedRow, CostRow, SectionRow};
use crate::rows::row_of;
use mj_model::MatrixSizes;
use std::alloc::{AllocError, Global};

/// The connection costs between some ids, dense enough to stay in a processor's caches, unlike the
/// whole table. It has a row for each left id, with a cost for each right id, in the order of their
/// numbers.
#[derive(Drop)]
pub(crate) struct CostCache {
    pub ids: ContextIds,
    pub costs: Vec<i16>,
}

/// Copies the costs between `ids` from a table of these sizes. Allocates 2 bytes for each pair.
pub(crate) fn cost_cache_of(
    alloc: Global,
    costs: &[u8],
    sizes: MatrixSizes,
    ids: ContextIds,
) -> Result<CostCache, AllocError>
    requires costs { AreCosts sizes costs.now }
    requires ids { AreOfSizes sizes ids }
    ensures { IfOk result (IsCostCache sizes costs.now) }
{
    let costs = cached_rows(alloc, costs, sizes, ids.lefts.ids(), ids.rights.ids())?;
    Ok(CostCache { ids, costs })
}

/// Returns a row of costs for each of `lefts`, with a column for each of `rights`. Copies column by
/// column, because section 1 stores the costs of one right id on a few pages, but each cost of one
/// left id on another page.
fn cached_rows(
    alloc: Global,
    costs: &[u8],
    sizes: MatrixSizes,
    lefts: &[u16],
    rights: &[u16],
) -> Result<Vec<i16>, AllocError>
    requires costs { AreCosts sizes costs.now }
    requires lefts { AreBelow sizes.left lefts.now }
    requires rights { AreBelow sizes.right rights.now }
    ensures { IfOk result (λ cached. AreRows (cost_between sizes costs.now lefts.now rights.now)
        (length rights.now) (length lefts.now) cached.items) }
{
    let count = lefts.len().checked_mul(rights.len()).ok_or(AllocError)?;
    let mut cached = vec![in alloc; 0; count]?;
    for column in 0..rights.len() {
        set_column(costs, sizes, lefts, rights, column, &mut cached);
    }
    Ok(cached)
}

/// Copies the costs of one column, which are those of one right id.
fn set_column(
    costs: &[u8],
    sizes: MatrixSizes,
    lefts: &[u16],
    rights: &[u16],
    column: usize,
    cached: &mut [i16],
)
    requires costs { AreCosts sizes costs.now }
    requires lefts { AreBelow sizes.left lefts.now }
    requires rights { AreBelow sizes.right rights.now }
    requires column { column < length rights.now }
    requires many { length cached.old ≡ length lefts.now * length rights.now }
    ensures { IsColumnSet (cost_after sizes costs.now lefts.now rights.now column)
        (length rights.now) (length lefts.now) column cached.old cached.new }
{
    let right = u32::from(rights[column]);
    for row in 0..lefts.len() {
        let left = u32::from(lefts[row]);
        cached[row * rights.len() + column] = cost_at(costs, sizes, right, left);
    }
}

impl CostCache {
    /// Returns the costs of connecting any word to a following word with the left id of `section`,
    /// from which the costs that are not cached are read.
    #[inline(always)]
    pub fn row<'a>(&'a self, section: SectionRow<'a>) -> CostRow<'a>
        requires cache { IsCostCache section.sizes section.costs.now self.now }
        requires section { IsSectionRow section }
        ensures row { IsCostRow result }
        ensures costs { costs_in_row result ≡ costs_in_section section.entry }
    {
        CostRow::Cached(CachedRow {
            cached: self.cached_row(section),
            numbers: self.ids.rights.numbers(),
            section,
        })
    }

    /// Returns the cached row of a left id, or an empty row if the id has no number.
    #[inline(always)]
    fn cached_row(&self, section: SectionRow<'_>) -> &[i16]
        requires cache { IsCostCache section.sizes section.costs.now self.now }
        requires section { IsSectionRow section }
        ensures { IsCacheRow self.now section.entry result.now }
    {
        let number = self.ids.lefts.number(section.left as usize);
        if number >= self.ids.lefts.ids().len() {
            return &[];
        }
        let width = self.ids.rights.ids().len();
        row_of(&self.costs, width, number)
    }
}
