//! Prunes the end nodes of a position that can't be on a best path.
//!
//! Whatever word follows, the connection cost is the same after all end nodes with one right id. So
//! only the first with the least forward cost can be on a best path, and at most one end node for
//! each right id is left.

ghost use Rattle.std.specs.Prelude.{◌≡◌, ◌↔◌, ◌≤ℤ◌, ◌+◌, ◌<◌, length, slice_get, IsTrue, OnOk, Some};
ghost use Rattle.viterbi.specs.Search.PrunedEndNodes.{ArePrunedFrom, AreRecorded, ArePruned, HaveDistinctRightIds, IsNotCostlier, RecordedEndNodes};

use crate::search::node::EndNode;
use crate::search::predecessor::LINEAR_SCAN_MAX;
use crate::search::slots::ensure_slot;
use std::alloc::{AllocError, Global};
use std::mem;

/// Prunes end nodes. Its buffers are reused from position to position.
#[derive(Debug, Drop)]
pub struct EndPruning {
    /// For each right id of an end node, the rank of the first end node of least forward cost that
    /// has it. Entries of other right ids may hold any number.
    ranks: Vec<usize>,
    /// The end nodes that are left after pruning.
    left: Vec<EndNode>,
}

impl EndPruning {
    /// Returns a pruner with empty buffers. Does not allocate.
    pub fn new(alloc: Global) -> EndPruning {
        EndPruning {
            ranks: Vec::new(alloc),
            left: Vec::new(alloc),
        }
    }

    /// Keeps of each right id the first end node of least forward cost, in the order of `ends`.
    ///
    /// Up to `LINEAR_SCAN_MAX` end nodes are all kept.
    pub fn prune_ends(&mut self, ends: &mut Vec<EndNode>) -> Result<(), AllocError>
        ensures left { OnOk result (ArePrunedFrom ends.old.items ends.new.items) }
        ensures pruned { OnOk result (ArePruned ends.new.items) }
    {
        if ends.len() <= LINEAR_SCAN_MAX {
            return Ok(());
        }
        record_ranks(ends, &mut self.ranks)?;
        keep_recorded(ends, &self.ranks, &mut self.left)?;
        mem::swap(ends, &mut self.left);
        Ok(())
    }
}

/// Records for each right id in `ends` the rank of its first end node of least forward cost.
fn record_ranks(ends: &[EndNode], ranks: &mut Vec<usize>) -> Result<(), AllocError>
    ensures { OnOk result (AreRecorded ends.now (length ends.now) ranks.new.items) }
{
    for rank in 0..ends.len() {
        record_rank(ends, ranks, rank)?;
    }
    Ok(())
}

/// Records `ends[rank]` unless the recorded end node of its right id is as good. Earlier ranks are
/// done.
fn record_rank(ends: &[EndNode], ranks: &mut Vec<usize>, rank: usize) -> Result<(), AllocError>
    requires rank { rank < length ends.now }
    requires before { AreRecorded ends.now rank ranks.old.items }
    ensures { OnOk result (AreRecorded ends.now (rank + 1) ranks.new.items) }
{
    let right = ends[rank].right;
    ensure_slot(ranks, right)?;
    let recorded = ranks[right];
    if !is_not_costlier(ends, recorded, rank) {
        ranks[right] = rank;
    }
    Ok(())
}

/// Returns whether the end node with rank `recorded` precedes `ends[rank]`, has its right id and
/// costs no more.
fn is_not_costlier(ends: &[EndNode], recorded: usize, rank: usize) -> bool
    requires { rank < length ends.now }
    ensures { IsTrue result ↔ IsNotCostlier ends.now recorded rank }
{
    recorded < rank && is_as_good(&ends[recorded], &ends[rank])
}

/// Returns whether `end` has the right id of `other` and costs no more.
fn is_as_good(end: &EndNode, other: &EndNode) -> bool
    ensures { IsTrue result
        ↔ ((end.now.right ≡ other.now.right) × (end.now.total ≤ℤ other.now.total)) }
{
    end.right == other.right && end.total <= other.total
}

/// Fills `left` with the end nodes whose rank is recorded for their right id.
fn keep_recorded(
    ends: &[EndNode],
    ranks: &[usize],
    left: &mut Vec<EndNode>,
) -> Result<(), AllocError>
    requires { AreRecorded ends.now (length ends.now) ranks.now }
    ensures left { OnOk result (ArePrunedFrom ends.now left.new.items) }
    ensures once { OnOk result (HaveDistinctRightIds left.new.items) }
{
    left.clear();
    for rank in 0..ends.len() {
        keep_if_recorded(ends, ranks, rank, left)?;
    }
    Ok(())
}

/// Appends `ends[rank]` to `left` if its rank is recorded.
fn keep_if_recorded(
    ends: &[EndNode],
    ranks: &[usize],
    rank: usize,
    left: &mut Vec<EndNode>,
) -> Result<(), AllocError>
    requires rank { rank < length ends.now }
    requires recorded { AreRecorded ends.now (length ends.now) ranks.now }
    requires before { RecordedEndNodes ends.now ranks.now rank left.old.items }
    ensures { OnOk result (RecordedEndNodes ends.now ranks.now (rank + 1) left.new.items) }
{
    let end = ends[rank];
    if is_recorded(ranks, end.right, rank) {
        left.push(end)?;
    }
    Ok(())
}

/// Returns whether `rank` is the recorded rank for right id `right`.
fn is_recorded(ranks: &[usize], right: usize, rank: usize) -> bool
    requires { right < length ranks.now }
    ensures { IsTrue result ↔ (slice_get ranks.now right ≡ Some rank) }
{
    ranks[right] == rank
}
