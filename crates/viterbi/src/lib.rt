//! Finds the best path through the words of a text with the Viterbi algorithm. The crate `lattice`
//! uses it with dictionaries. Use it directly with any other source of words and connection costs
//! that implements `search::WordSource`. `search` finds the best path, `nodes` computes the lattice
//! with the forward cost of each node and the cost of the best path through it, and `rivals` finds
//! the best alternative to each word of the best path.
//!
//! A chain is a list of words, each at the end of the word before it and, unless stated otherwise,
//! the first at the start of the text. A path is a chain that ends as late as any. The position of
//! a word is the byte offset before its blanks, `Word::place`.
//!
//! Example, on a text of 2 bytes with the words `a` (0 to 1), `b` (1 to 2) and `ab` (0 to 2) of
//! word costs 10, 10 and 27. Connections cost 10 after BOS, 7 between words and 5 before EOS:
//!
//! ```text
//! Search::new(alloc).fill(&text, &mut path)?;   // the words `a` and `b`, total 42
//! let nodes = lattice_nodes(alloc, &text)?;     // forward costs: `a` 20, `ab` 37, `b` 37
//! mark_nodes_on_path(alloc, &nodes, &path.words)?;   // true, false, true
//! ```
//! The tests `best_paths` (in of_lattice.rt, test case `tie_later_place`) and `lattices` of
//! `crates/search_tests` run it.
#![tactic(auto)]

pub mod nodes;
pub mod rivals;
pub mod search;
