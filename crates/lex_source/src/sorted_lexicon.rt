//! Entries in the order of a dictionary.
ghost use Rattle.std.specs.Prelude.{◌≡◌};
ghost use Rattle.mj_model.specs.Lexicon.{rows_of};
ghost use Rattle.lex_source.specs.Lexicons.{AreSortedRows};

use mj_model::{MatrixSizes, Record};
use std::marker::Model;

/// The entries of a dictionary, sorted by the bytes of their surfaces. Their ids lie within the
/// sizes of a connection table.
#[derive(Drop)]
pub struct SortedLexicon<'a> {
    pub(crate) sizes: MatrixSizes,
    pub(crate) records: Vec<Record<'a>>,
}

impl<'a> Model for SortedLexicon<'a> {
    ghost use Rattle.lex_source.specs.Lexicons.{AreSortedRows, LexiconRows, entries_in};

    ghost Value = { LexiconRows };

    ghost view = { λ l. entries_in l.sizes l.records.items };

    ghost invariant = { λ l. AreSortedRows (entries_in l.sizes l.records.items) };
}

impl<'a> SortedLexicon<'a> {
    /// Returns the sizes of the connection table.
    pub fn sizes(&self) -> MatrixSizes
        ensures { result ≡ self.now.sizes }
    {
        self.sizes
    }

    /// Returns the sorted entries.
    pub fn records(&self) -> &[Record<'a>]
        ensures rows { rows_of result.now ≡ self.now.rows }
        ensures formed { AreSortedRows self.now }
    {
        &self.records
    }
}
