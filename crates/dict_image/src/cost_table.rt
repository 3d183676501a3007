//! The table of connection costs.
ghost use Rattle.std.specs.Prelude.{◌≡◌, ◌+◌, ◌*◌, ◌<◌, ◌≤◌, IfOk, OnOk, length};
ghost use Rattle.image_format.specs.ImageBytes.{kind_of};
ghost use Rattle.image_format.specs.ImageSections.{AreCosts};
ghost use Rattle.mj_model.specs.Tables.{System};
ghost use Rattle.dict_image.specs.Columns.{IsColumnSet};
ghost use Rattle.dict_image.specs.CostTables.{AreRowsTo, IsCostTable, are_few_pairs, cost_from};
ghost use Rattle.dict_image.specs.Rows.{AreRows};

use crate::context_ids::ContextIds;
use crate::cost_cache::{CostCache, cost_cache_of};
use crate::costs::cost_at;
use image_format::Header;
use mj_model::MatrixSizes;
use std::alloc::{AllocError, Global};

/// The greatest number of pairs of ids whose costs are copied when a dictionary is loaded.
pub(crate) const COPIED_MAX: usize = 1 << 23;

/// The number of rows that are filled together: for one right id, their costs in section 1 fill a
/// cache line, and a block of rows fits a processor's caches.
const BLOCK_ROWS: u32 = 32;

/// The table of connection costs, by the kind and size of the dictionary.
#[derive(Drop)]
pub(crate) enum CostTable {
    /// A user dictionary, which has no connection costs.
    OfUser,
    /// A copy with a row for each left id, by right id, because a search reads many right ids
    /// before one left id.
    InRows(Vec<i16>),
    /// A cache of the costs between some ids; other costs are read from section 1, where those of
    /// one left id lie far apart. The cache is empty until `cache_costs`.
    Cache(CostCache),
}

/// Returns the table of connection costs for an image. For a system dictionary of at most
/// `COPIED_MAX` pairs it allocates 2 bytes for each pair, for a larger one 2 bytes for each id.
pub(crate) fn cost_table_of(
    alloc: Global,
    header: &Header,
    costs: &[u8],
) -> Result<CostTable, AllocError>
    requires { kind_of header.now ≡ System → AreCosts header.now.sizes costs.now }
    ensures { IfOk result (λ table.
        IsCostTable (kind_of header.now) header.now.sizes costs.now table) }
{
    if header.is_user() {
        return Ok(CostTable::OfUser);
    }
    let sizes = header.sizes;
    if are_few(sizes) {
        return Ok(CostTable::InRows(cost_rows(alloc, costs, sizes)?));
    }
    let none = ContextIds::new(alloc, sizes)?;
    Ok(CostTable::Cache(cost_cache_of(alloc, costs, sizes, none)?))
}

/// Returns whether there are at most `COPIED_MAX` pairs of ids.
pub(crate) fn are_few(sizes: MatrixSizes) -> bool
    ensures { result ≡ are_few_pairs sizes }
{
    pairs(sizes) <= COPIED_MAX
}

/// Returns the number of pairs of ids.
fn pairs(sizes: MatrixSizes) -> usize
    ensures { result ≡ sizes.left * sizes.right }
{
    sizes.left as usize * sizes.right as usize
}

/// Copies the costs of a matrix into rows by left id. Fills `BLOCK_ROWS` rows at a time, so that
/// both the costs that are read and the rows stay in a processor's caches.
fn cost_rows(alloc: Global, costs: &[u8], sizes: MatrixSizes) -> Result<Vec<i16>, AllocError>
    requires { AreCosts sizes costs.now }
    ensures { IfOk result (λ rows. AreRowsTo sizes costs.now sizes.left rows.items) }
{
    let mut rows = Vec::with_capacity(alloc, pairs(sizes))?;
    let mut first = 0;
    while first < sizes.left {
        let count = BLOCK_ROWS.min(sizes.left - first);
        append_rows(costs, sizes, first, count, &mut rows)?;
        first += count;
    }
    Ok(rows)
}

/// Appends a block of rows: the costs of `count` left ids from `first` on.
fn append_rows(
    costs: &[u8],
    sizes: MatrixSizes,
    first: u32,
    count: u32,
    rows: &mut Vec<i16>,
) -> Result<(), AllocError>
    requires costs { AreCosts sizes costs.now }
    requires lefts { first + count ≤ sizes.left }
    requires rows { AreRowsTo sizes costs.now first rows.old.items }
    ensures { OnOk result (AreRowsTo sizes costs.now (first + count) rows.new.items) }
{
    let start = rows.len();
    let end = (first + count) as usize * sizes.right as usize;
    rows.resize(end, 0)?;
    set_rows(costs, sizes, first, count, &mut rows[start..]);
    Ok(())
}

/// Sets `count` rows to the costs of the left ids from `first` on. Copies column by column, because
/// section 1 stores the costs of one right id side by side.
fn set_rows(costs: &[u8], sizes: MatrixSizes, first: u32, count: u32, rows: &mut [i16])
    requires costs { AreCosts sizes costs.now }
    requires lefts { first + count ≤ sizes.left }
    requires many { length rows.old ≡ count * sizes.right }
    ensures { AreRows (cost_from sizes costs.now first) sizes.right count rows.new }
{
    for right in 0..sizes.right {
        set_column(costs, sizes, first, count, right, rows);
    }
}

/// Sets the column of right id `right` in `count` rows, which belong to the left ids from `first`
/// on.
fn set_column(
    costs: &[u8],
    sizes: MatrixSizes,
    first: u32,
    count: u32,
    right: u32,
    rows: &mut [i16],
)
    requires costs { AreCosts sizes costs.now }
    requires lefts { first + count ≤ sizes.left }
    requires right { right < sizes.right }
    requires many { length rows.old ≡ count * sizes.right }
    ensures { IsColumnSet (λ row. cost_from sizes costs.now first row right) sizes.right count right
        rows.old rows.new }
{
    let width = sizes.right as usize;
    for row in 0..count {
        rows[row as usize * width + right as usize] = cost_at(costs, sizes, right, first + row);
    }
}
