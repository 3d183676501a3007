//! The search for the best path.

ghost use Rattle.std.specs.Prelude.{◌≡◌, IfOk, OnOk, OnErr};
ghost use Rattle.viterbi.specs.Search.SearchedText.{CanBeSearched, IsBestIn, cost_of};

use crate::search::backtrace::backtrace_best;
use crate::search::best_words::BestWords;
use crate::search::build::{SearchBuffers, build};
use crate::search::nodes::Nodes;
use crate::search::source::WordSource;
use mj_model::Word;
use mj_model::paths::{Path, WordStream};
use std::alloc::{AllocError, Global};
use std::mem;

/// Finds the best path of one text after another, and reuses its buffers.
///
/// The algorithm is Viterbi's (IEEE Transactions on Information Theory 13 (2), 1967), as in MeCab.
/// It is linear in the nodes and the connections between them. Each call starts from scratch, so a
/// `Search` can be used again after an allocation failure.
#[derive(Debug, Drop)]
pub struct Search {
    nodes: Nodes,
    buffers: SearchBuffers,
    /// Receives the words of the best path before `fill` swaps them into the caller's path.
    best: Vec<Word>,
}

/// The best path of a text, whose words are read one by one, and its total cost.
#[derive(Drop)]
pub struct BestPath<'a, S: WordSource> {
    pub words: BestWords<'a, S>,
    pub total: i64,
}

impl Search {
    /// Returns a search with empty buffers. Does not allocate.
    pub fn new(alloc: Global) -> Search {
        Search {
            nodes: Nodes::new(alloc),
            buffers: SearchBuffers::new(alloc),
            best: Vec::new(alloc),
        }
    }

    /// Returns the best path of the text of `source`. Its words are read from the buffers of this
    /// search.
    pub fn find<'a, S: WordSource>(
        &'a mut self,
        source: &'a S,
    ) -> Result<BestPath<'a, S>, AllocError>
        requires { CanBeSearched (S.searched_text source.now) }
        // The path is preferred to every other path.
        ensures best { IfOk result (λ found. IsBestIn (S.searched_text source.now) found.words) }
        ensures total { IfOk result (λ found.
            found.total ≡ cost_of (S.searched_text source.now) found.words) }
    {
        find_in(source, &mut self.nodes, &mut self.buffers)
    }

    /// Sets `path` to the best path of the text of `source`. The memory of `path` and of this
    /// search is reused.
    pub fn fill<S: WordSource>(&mut self, source: &S, path: &mut Path) -> Result<(), AllocError>
        requires { CanBeSearched (S.searched_text source.now) }
        // The path is preferred to every other path.
        ensures best { OnOk result (IsBestIn (S.searched_text source.now) path.new.words.items) }
        ensures total { OnOk result
            (path.new.total ≡ cost_of (S.searched_text source.now) path.new.words.items) }

        // On an error the path is unchanged.
        ensures words_unchanged { OnErr result (path.new.words.items ≡ path.old.words.items) }
        ensures total_unchanged { OnErr result (path.new.total ≡ path.old.total) }
    {
        let found = find_in(source, &mut self.nodes, &mut self.buffers)?;
        let total = found.total;
        read_all(found.words, &mut self.best)?;
        mem::swap(&mut path.words, &mut self.best);
        path.total = total;
        Ok(())
    }
}

/// Returns the best path of a text, after building its lattice in `nodes`.
fn find_in<'a, S: WordSource>(
    source: &'a S,
    nodes: &'a mut Nodes,
    buffers: &mut SearchBuffers,
) -> Result<BestPath<'a, S>, AllocError>
    requires { CanBeSearched (S.searched_text source.now) }
    ensures best { IfOk result (λ found. IsBestIn (S.searched_text source.now) found.words) }
    ensures total { IfOk result
        (λ found. found.total ≡ cost_of (S.searched_text source.now) found.words) }
{
    build(source, nodes, buffers)?;
    let total = backtrace_best(source, nodes, &mut buffers.ends)?;
    Ok(BestPath {
        words: BestWords::new(source, nodes),
        total,
    })
}

/// Fills `words` with the words of the stream `left`.
fn read_all<W: WordStream + Drop>(left: W, words: &mut Vec<Word>) -> Result<(), AllocError>
    ensures { OnOk result (words.new.items ≡ W.left left) }
{
    let mut left = left;
    words.clear();
    while let Some(word) = left.next_word() {
        words.push(word)?;
    }
    Ok(())
}
