//! The predecessors that were found at one position, cached by left id.

ghost use Rattle.std.specs.Prelude.{◌≡◌, ◌++◌, ◌∷◌, [], OnOk};
ghost use Rattle.viterbi.specs.Search.PredecessorCache.{IsCacheResult, IsUncached};

use crate::search::node::Predecessor;
use crate::search::slots::ensure_slot;
use std::alloc::{AllocError, Global};
use std::marker::Model;

/// The best predecessor of a word with left id `left`.
#[derive(Clone, Copy, Debug, Drop)]
pub struct CachedPredecessor {
    pub left: u16,
    pub predecessor: Predecessor,
}

/// The cached predecessors of one position by left id: a sparse set (Briggs and Torczon, 1993),
/// which is cleared without visiting the slots.
///
/// If a left id is cached, its slot holds the index of its entry in `found`. Any other slot may
/// hold any number.
#[derive(Debug, Drop)]
pub struct PredecessorCache {
    found: Vec<CachedPredecessor>,
    slots: Vec<usize>,
}

impl Model for PredecessorCache {
    ghost use Rattle.std.specs.Prelude.{List};
    ghost use Rattle.viterbi.specs.declared.search.predecessor_cache.CachedPredecessor.{CachedPredecessor};
    ghost use Rattle.viterbi.specs.Search.PredecessorCache.{HaveSlots};

    ghost Value = { List CachedPredecessor };

    ghost view = { λ predecessors. predecessors.found.items };

    ghost invariant = { λ predecessors. HaveSlots predecessors.found.items
        predecessors.slots.items };
}

impl PredecessorCache {
    /// Returns an empty cache. Does not allocate.
    pub fn new(alloc: Global) -> PredecessorCache
        ensures { result ≡ [] }
    {
        PredecessorCache {
            found: Vec::new(alloc),
            slots: Vec::new(alloc),
        }
    }

    /// Empties the cache. The slots are not visited.
    pub fn clear(&mut self)
        ensures { self.new ≡ [] }
    {
        self.found.clear();
    }

    /// Returns the cached predecessor for left id `left`.
    pub fn get(&self, left: u16) -> Option<Predecessor>
        ensures { IsCacheResult self.now left result }
    {
        let slot = *self.slots.get(usize::from(left))?;
        let kept = self.found.get(slot)?;
        if kept.left == left {
            Some(kept.predecessor)
        } else {
            None
        }
    }

    /// Caches the predecessor for left id `left`, which must not be cached yet.
    pub fn add(&mut self, left: u16, predecessor: Predecessor) -> Result<(), AllocError>
        requires { IsUncached self.old left }
        ensures { OnOk result
            (self.new ≡ self.old ++ record { left = left; predecessor = predecessor } ∷ []) }
    {
        let slot = usize::from(left);
        ensure_slot(&mut self.slots, slot)?;
        let number = self.found.len();
        self.found.push(CachedPredecessor { left, predecessor })?;
        self.slots[slot] = number;
        Ok(())
    }
}
