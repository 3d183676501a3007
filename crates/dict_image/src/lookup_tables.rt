//! Tables that are built when an image is loaded, to speed up the search.
ghost use Rattle.std.specs.Prelude.{IfOk};
ghost use Rattle.dict_image.specs.LookupState.{AreLookupTables};
ghost use Rattle.dict_image.specs.Validation.Outlines.{IsOutline};

use crate::categories::categories_of;
use crate::cost_table::{CostTable, cost_table_of};
use crate::info_table::{InfoTable, info_table_of};
use crate::validation::Outline;
use image_format::{Section, section_bytes};
use mj_model::Category;
use std::alloc::{AllocError, Global};

/// The tables of connection costs, categories of code points, and categories by number.
#[derive(Drop)]
pub(crate) struct LookupTables {
    pub costs: CostTable,
    pub infos: InfoTable,
    pub categories: Vec<Category>,
}

/// Returns the lookup tables of an image. Allocates 4 bytes for each code point of the basic plane
/// if section 3 has ranges, a copy of the connection costs if they are few, otherwise 2 bytes for
/// each context id, and 3 bytes for each category.
pub(crate) fn lookup_tables_of(
    alloc: Global,
    bytes: &[u8],
    outline: &Outline,
) -> Result<LookupTables, AllocError>
    requires { IsOutline bytes.now outline.now }
    ensures { IfOk result (AreLookupTables bytes.now) }
{
    let Outline { header, ends, .. } = outline;
    let costs = cost_table_of(alloc, header, section_bytes(bytes, ends, Section::Costs))?;
    let infos = info_table_of(alloc, header, section_bytes(bytes, ends, Section::Infos))?;
    let named = section_bytes(bytes, ends, Section::Categories);
    let categories = categories_of(alloc, named, header.categories)?;
    Ok(LookupTables {
        costs,
        infos,
        categories,
    })
}
