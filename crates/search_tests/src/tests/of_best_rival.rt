//! Rivals of words, by the numbers of lattice nodes.

use mj_model::{Origin, Word};
use std::test::Fail;
use viterbi::nodes::LatticeNode;
use viterbi::rivals::{Rival, best_rival};

fn word(place: usize, end: usize) -> Word {
    Word {
        place,
        start: place,
        end,
        left: 1,
        right: 1,
        cost: 0,
        origin: Origin::Unknown { token: 0 },
    }
}

fn node(place: usize, end: usize, through: Option<i64>) -> LatticeNode {
    LatticeNode {
        word: word(place, end),
        total: 0,
        through,
    }
}

/// The nodes of すもももも in the sample, a word in two parts, a node with the boundaries of すもも, and a
/// node that no path goes through.
#[test]
fn rivals_of_words(rt: HostRuntime) -> Result<(), Fail> {
    let nodes = [
        node(0, 9, Some(152)),
        node(0, 6, Some(200)),
        node(6, 15, Some(200)),
        node(9, 12, Some(169)),
        node(9, 15, Some(152)),
        node(12, 15, Some(169)),
        node(3, 15, None),
        node(0, 9, Some(160)),
    ];
    #[rattlefmt::skip]
    let rows = [
        // (what, position, end, the rival's number and cost)
        ("one that ends before it",          0, 9,  Some((1, 200))),
        ("one that ends after it",           9, 12, Some((4, 152))),
        ("one that starts before it",       12, 15, Some((4, 152))),
        ("two in its place",                 9, 15, Some((3, 169))),
        ("of two with one end the cheaper",  0, 6,  Some((0, 152))),
        ("no dead end",                      6, 15, Some((0, 152))),
        ("one in place of two",             12, 13, Some((4, 152))),
    ];
    for (what, place, end, wanted) in rows {
        let wanted = wanted.map(|(number, cost)| Rival { number, cost });
        assert!(rt; best_rival(&nodes, &word(place, end)) == wanted, "{what}");
    }
    let alone = [node(0, 9, Some(152)), node(0, 9, Some(160))];
    assert!(rt;
        best_rival(&alone, &word(0, 9)) == None,
        "words with its boundaries alone"
    );
    assert!(rt; best_rival(&[], &word(0, 3)) == None, "no node");
    let equal = [
        node(0, 6, Some(200)),
        node(0, 9, Some(152)),
        node(0, 12, Some(152)),
    ];
    assert!(rt;
        best_rival(&equal, &word(0, 3))
            == Some(Rival {
                number: 1,
                cost: 152
            }),
        "the first of two of one cost"
    );
    Ok(())
}
