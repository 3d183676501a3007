//! Cached connection costs for a matrix that is too large to be copied.
ghost use Rattle.std.specs.Prelude.{◌≡◌, IfOk, IsTrue};
ghost use Rattle.image_format.specs.ImageMeaning.{image_tables};
ghost use Rattle.mj_model.specs.Tables.{System};
ghost use Rattle.dict_image.specs.ContextIds.{AreOfSizes};
ghost use Rattle.dict_image.specs.CostTables.{is_large_matrix};
ghost use Rattle.dict_image.specs.LookupState.{IsCostTableIn};

use crate::context_ids::ContextIds;
use crate::cost_cache::cost_cache_of;
use crate::cost_table::{CostTable, are_few};
use crate::dict::Dict;
use image_format::Section::Costs;
use std::alloc::{AllocError, Global};

impl Dict {
    /// Returns whether the dictionary is a system dictionary with more than 2^23 pairs of context
    /// ids (`COPIED_MAX`). Its connection costs are not copied when it is loaded, and `cache_costs`
    /// speeds up their lookup.
    pub fn is_large_matrix(&self) -> bool
        ensures large { result ≡ is_large_matrix (image_tables self.now) }
        ensures system { IsTrue result → (image_tables self.now).kind ≡ System }
    {
        !self.is_user() && !are_few(self.header().sizes)
    }

    /// Copies the connection costs between `ids` into a cache that replaces the one before. Costs
    /// do not change. Lookups become faster if the matrix is large; a smaller one was copied whole
    /// when it was loaded, and lookups in this cache are slower. Allocates 2 bytes for each pair of
    /// ids. If an allocation fails, the dictionary is unchanged.
    pub fn cache_costs(&mut self, alloc: Global, ids: ContextIds) -> Result<(), AllocError>
        requires system { (image_tables self.old).kind ≡ System }
        requires ids { AreOfSizes (image_tables self.old).sizes ids }
        ensures { self.new ≡ self.old }
    {
        let table = self.cached_table(alloc, ids)?;
        self.set_cost_table(table);
        Ok(())
    }

    /// Returns a table with a cache of the costs between `ids`.
    fn cached_table(&self, alloc: Global, ids: ContextIds) -> Result<CostTable, AllocError>
        requires system { (image_tables self.now).kind ≡ System }
        requires ids { AreOfSizes (image_tables self.now).sizes ids }
        ensures { IfOk result (IsCostTableIn self.now) }
    {
        let sizes = self.header().sizes;
        Ok(CostTable::Cache(cost_cache_of(alloc, self.section(Costs), sizes, ids)?))
    }
}
