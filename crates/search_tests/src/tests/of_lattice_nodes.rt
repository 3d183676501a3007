//! The lattices of small texts.

use super::all_match;
use super::sample::{A, AB, B, C, WordRow, has_number, sample_of};
use mj_model::paths::Path;
use std::alloc::{AllocError, Global};
use std::test::Fail;
use viterbi::nodes::{LatticeNode, lattice_nodes, mark_nodes_on_path};
use viterbi::search::Search;

/// Returns the nodes of the lattice of a text of `length` bytes with the words `words`, and for
/// each whether it is on the best path.
fn nodes_of(
    alloc: Global,
    length: u16,
    words: &[WordRow],
) -> Result<(Vec<LatticeNode>, Vec<bool>), AllocError> {
    let sample = sample_of(alloc, length, words)?;
    let nodes = lattice_nodes(alloc, &sample)?;
    let mut path = Path {
        words: Vec::new(alloc),
        total: 0,
    };
    Search::new(alloc).fill(&sample, &mut path)?;
    let best = mark_nodes_on_path(alloc, &nodes, &path.words)?;
    Ok((nodes, best))
}

/// A node by the number of its word, its forward cost, the least cost of a path through it, and
/// whether it is on the best path.
type NodeRow = (usize, i64, Option<i64>, bool);

fn is_node(node: &LatticeNode, (number, total, through, _is_best): &NodeRow) -> bool {
    has_number(&node.word, number) && node.total == *total && node.through == *through
}

/// Returns whether `on` is what the test case expects of a node.
fn is_marked(on: &bool, row: &NodeRow) -> bool {
    *on == row.3
}

const DEAR_A: WordRow = (0, 1, 50);

const DEAR_AB: WordRow = (0, 2, 40);

const ABC: WordRow = (0, 3, 100);

// A connection costs 10 after BOS, 7 between words and 5 before EOS. So `A` has the forward cost 10
// + 10 = 20, `B` after it 20 + 7 + 10 = 37, and the path of both costs 37 + 5 = 42.
#[rattlefmt::skip]
static LATTICES: [(&str, u16, &[WordRow], &[NodeRow]); 9] = [
    // (what, length, words, nodes)
    ("one word", 1, &[A], &[(0, 20, Some(25), true)]),
    // 10 + 27 = 37, and 37 + 5 = 42. Of equal paths the best is the one whose last differing word
    // has the later position.
    (
        "words of a position are adjacent",
        2,
        &[A, B, AB],
        &[
            (0, 20, Some(42), true),
            (2, 37, Some(42), false),
            (1, 37, Some(42), true),
        ],
    ),
    // 10 + 50 = 60, and 60 + 7 + 10 + 5 = 82
    (
        "a dearer word",
        2,
        &[A, DEAR_A, B],
        &[
            (0, 20, Some(42), true),
            (1, 60, Some(82), false),
            (2, 37, Some(42), true),
        ],
    ),
    // 10 + 100 = 110, and 110 + 5 = 115
    (
        "dead ends",
        3,
        &[A, B, ABC],
        &[
            (0, 20, None, false),
            (2, 110, Some(115), true),
            (1, 37, None, false),
        ],
    ),
    (
        "a word that no chain reaches",
        3,
        &[A, C],
        &[(0, 20, Some(25), true)],
    ),
    (
        "paths that end before the text",
        3,
        &[A, B],
        &[(0, 20, Some(42), true), (1, 37, Some(42), true)],
    ),
    // 10 + 40 = 50; 37 + 7 + 10 = 54, and 54 + 5 = 59; 50 + 7 + 10 + 5 = 72
    (
        "the least of the words before it",
        3,
        &[A, DEAR_AB, B, C],
        &[
            (0, 20, Some(59), true),
            (1, 50, Some(72), false),
            (2, 37, Some(59), true),
            (3, 54, Some(59), true),
        ],
    ),
    // 10 - 500 = -490, -490 + 7 - 3 = -486, and -486 + 5 = -481
    (
        "costs below 0",
        2,
        &[(0, 1, -500), (1, 2, -3)],
        &[(0, -490, Some(-481), true), (1, -486, Some(-481), true)],
    ),
    ("empty text", 0, &[], &[]),
];

#[test]
fn lattices(rt: HostRuntime) -> Result<(), Fail> {
    for (what, length, words, wanted) in &LATTICES {
        let (nodes, best) = nodes_of(rt.alloc(), *length, words)?;
        assert!(rt; all_match(&nodes, wanted, is_node), "{what}");
        assert!(rt; all_match(&best, wanted, is_marked), "{what}");
    }
    Ok(())
}
