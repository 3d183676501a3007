//! The backtrace from the end of a lattice to BOS.

ghost use Rattle.std.specs.Prelude.{◌≡◌, length, IfOk, OnOk};
ghost use Rattle.viterbi.specs.Search.BestNodes.{AreBacktraceNumbers, HaveBestNodes, BacktracesTo, StoredLinksGoBack, best_words};
ghost use Rattle.viterbi.specs.Search.Nodes.{IsLastHead};
ghost use Rattle.viterbi.specs.Search.Lattice.{IsBelow};
ghost use Rattle.viterbi.specs.Search.SearchedText.{AreStoredIn, CanBeSearched, IsBestIn, IsLatticeTo, cost_of, stored_nodes};

use crate::search::end_nodes::collect_end_nodes;
use crate::search::node::{BOUNDARY_ID, Backpointer, EndNode, Predecessor, from_one_based};
use crate::search::nodes::Nodes;
use crate::search::predecessor::best_predecessor;
use crate::search::source::WordSource;
use std::alloc::AllocError;

/// Finds the best path through the lattice of a text and returns its cost.
///
/// `nodes.heads`, which is not needed any more, receives the numbers of the path's nodes. `ends` is
/// a buffer for end nodes.
pub fn backtrace_best<S: WordSource>(
    source: &S,
    nodes: &mut Nodes,
    ends: &mut Vec<EndNode>,
) -> Result<i64, AllocError>
    requires source { CanBeSearched (S.searched_text source.now) }
    requires stored { AreStoredIn (S.searched_text source.now) nodes.old }
    requires lattice { IsLatticeTo (S.searched_text source.now)
        (stored_nodes (S.searched_text source.now) nodes.old)
        (S.searched_text source.now).text_length }
    ensures nodes { OnOk result (HaveBestNodes (S.searched_text source.now) nodes.new) }
    ensures best { OnOk result (IsBestIn (S.searched_text source.now)
        (best_words (S.searched_text source.now) nodes.new)) }
    ensures total { IfOk result (λ total. total ≡ cost_of (S.searched_text source.now)
        (best_words (S.searched_text source.now) nodes.new)) }
{
    let found = last_predecessor(source, nodes, ends)?;
    backtrace_numbers(
        &nodes.backpointers,
        from_one_based(found.before),
        &mut nodes.heads,
    )?;
    Ok(found.cost)
}

/// Returns the predecessor of EOS: the best node that ends at the last reachable position. `ends`
/// is a buffer for the end nodes of that position.
fn last_predecessor<S: WordSource>(
    source: &S,
    nodes: &Nodes,
    ends: &mut Vec<EndNode>,
) -> Result<Predecessor, AllocError>
    requires source { CanBeSearched (S.searched_text source.now) }
    requires stored { AreStoredIn (S.searched_text source.now) nodes.now }
    requires lattice { IsLatticeTo (S.searched_text source.now)
        (stored_nodes (S.searched_text source.now) nodes.now)
        (S.searched_text source.now).text_length }
    ensures { IfOk result (BacktracesTo (S.searched_text source.now)
        (stored_nodes (S.searched_text source.now) nodes.now)) }
{
    let last = last_end_position(&nodes.heads);
    collect_end_nodes(source, nodes, last, ends)?;
    Ok(best_predecessor(source, ends, BOUNDARY_ID))
}

/// Returns the greatest position at which a node ends, or 0.
fn last_end_position(heads: &[usize]) -> usize
    ensures { IsLastHead heads.now result }
{
    let mut end = heads.len();
    while 1 < end {
        if 0 < heads[end - 1] {
            return end - 1;
        }
        end -= 1;
    }
    0
}

/// Fills `numbers` with the numbers of the nodes from `from` back to BOS, the last node first.
fn backtrace_numbers(
    backpointers: &[Backpointer],
    from: Option<usize>,
    numbers: &mut Vec<usize>,
) -> Result<(), AllocError>
    requires links { StoredLinksGoBack backpointers.now }
    requires from { IsBelow from (length backpointers.now) }
    ensures { OnOk result (AreBacktraceNumbers backpointers.now from numbers.new.items) }
{
    numbers.clear();
    let mut link = from;
    while let Some(i) = link {
        numbers.push(i)?;
        link = backpointers[i].link();
    }
    Ok(())
}
