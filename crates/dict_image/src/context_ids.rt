//! The context ids that a text uses, whose connection costs are worth caching.
ghost use Rattle.std.specs.Prelude.{IfOk, OnOk};
ghost use Rattle.dict_image.specs.ContextIds.{AreOfSizes, HaveSameSizes};
ghost use Rattle.dict_image.specs.NumberedIds.{IsAdded};

use crate::numbered_ids::NumberedIds;
use mj_model::MatrixSizes;
use std::alloc::{AllocError, Global};

/// Left ids and right ids of one dictionary, each in the order in which they were added.
#[derive(Debug, Drop)]
pub struct ContextIds {
    /// The left ids.
    pub lefts: NumberedIds,
    /// The right ids.
    pub rights: NumberedIds,
}

impl ContextIds {
    /// Returns an empty collection for a dictionary with a connection table of these sizes.
    pub fn new(alloc: Global, sizes: MatrixSizes) -> Result<ContextIds, AllocError>
        ensures { IfOk result (AreOfSizes sizes) }
    {
        let lefts = NumberedIds::new(alloc, sizes.left)?;
        let rights = NumberedIds::new(alloc, sizes.right)?;
        Ok(ContextIds { lefts, rights })
    }

    /// Adds the left id and the right id of a word. An id is skipped if it was added before, if it
    /// is outside the table, or if its side already has `NUMBERED_MAX` ids. If an allocation fails,
    /// the left id may have been added.
    pub fn add(&mut self, left: u16, right: u16) -> Result<(), AllocError>
        ensures sizes { HaveSameSizes self.old self.new }
        ensures left { OnOk result (IsAdded self.old.lefts left self.new.lefts) }
        ensures right { OnOk result (IsAdded self.old.rights right self.new.rights) }
    {
        self.lefts.add(left)?;
        self.rights.add(right)
    }
}
