//! Entries in the order of their sources.
ghost use Rattle.std.specs.Prelude.{◌≡◌, ℕ, [], length, take, IfOk, IfErr, OnErr, option_map};
ghost use Rattle.mj_model.specs.declared.source_fault.SourceKind.TheVariants.{IdOutside};
ghost use Rattle.mj_model.specs.Dictionary.{first_outside};
ghost use Rattle.mj_model.specs.FirstFault.{IsMemoryOr};
ghost use Rattle.mj_model.specs.Lexicon.{rows_of};
ghost use Rattle.lex_source.specs.Lexicons.{AreSortedOf, entries_in};
ghost use Rattle.lex_source.specs.AddedLexicon.{AddsLexicon, IsLexiconFault};

use crate::lexicon::read_lexicon;
use crate::ordering::in_order;
use crate::sorted_lexicon::SortedLexicon;
use mj_model::{MatrixSizes, Record, SourceFault, SourceKind};
use std::alloc::{AllocError, Global};
use std::marker::Model;

/// The entries of lexicons in source order. Their ids lie within the sizes of a connection table.
#[derive(Drop)]
pub struct SourceLexicon<'a> {
    sizes: MatrixSizes,
    records: Vec<Record<'a>>,
}

impl<'a> Model for SourceLexicon<'a> {
    ghost use Rattle.lex_source.specs.Lexicons.{AreLexiconRows, LexiconRows, entries_in};

    ghost Value = { LexiconRows };

    ghost view = { λ l. entries_in l.sizes l.records.items };

    ghost invariant = { λ l. AreLexiconRows (entries_in l.sizes l.records.items) };
}

impl<'a> SourceLexicon<'a> {
    /// Returns a lexicon without entries, for a connection table of these sizes.
    pub fn new(alloc: Global, sizes: MatrixSizes) -> SourceLexicon<'a>
        ensures { result ≡ record { sizes = sizes; rows = [] } }
    {
        SourceLexicon {
            sizes,
            records: Vec::new(alloc),
        }
    }

    /// Returns the number of entries.
    pub fn len(&self) -> usize
        ensures { result ≡ length self.now.rows }
    {
        self.records.len()
    }

    /// Appends the accepted lines of a lexicon, and returns how many were skipped because their
    /// surface is empty.
    ///
    /// `file` is the lexicon's file number in an error. All lines are checked before any ids. On an
    /// error nothing changes. (MeCab, dic-detail)
    pub fn add(&mut self, alloc: Global, bytes: &'a [u8], file: u32) -> Result<u64, SourceFault>
        ensures added { IfOk result (AddsLexicon file bytes.now self.old self.new) }
        ensures rejected { IfErr result (λ fault. IsMemoryOr fault
            (IsLexiconFault file bytes.now self.old fault)) }
        ensures unchanged { OnErr result (self.new ≡ self.old) }
    {
        let held = self.records.len();
        let read = append_within(alloc, bytes, file, self.sizes, &mut self.records);
        if read.is_err() {
            self.records.truncate(held);
        }
        read
    }

    /// Returns the entries sorted by the bytes of their surfaces. Entries with equal surfaces keep
    /// their order. Fails only if an allocation fails.
    pub fn sorted(self) -> Result<SortedLexicon<'a>, AllocError>
        ensures { IfOk result (AreSortedOf self.entry) }
    {
        Ok(SortedLexicon {
            sizes: self.sizes,
            records: in_order(self.records)?,
        })
    }
}

/// Appends the accepted lines of a lexicon up to the first rejected one, then checks the ids of the
/// appended lines.
fn append_within<'a>(
    alloc: Global,
    bytes: &'a [u8],
    file: u32,
    sizes: MatrixSizes,
    records: &mut Vec<Record<'a>>,
) -> Result<u64, SourceFault>
    ensures accepted { IfOk result (AddsLexicon file bytes.now (entries_in sizes records.old.items)
        (entries_in sizes records.new.items)) }
    ensures rejected { IfErr result (λ fault. IsMemoryOr fault
        (IsLexiconFault file bytes.now (entries_in sizes records.old.items) fault)) }
    ensures begins { take (length records.old.items) (rows_of records.new.items)
        ≡ rows_of records.old.items }
{
    let held = records.len();
    let skipped = read_lexicon(alloc, bytes, file, records)?;
    match line_outside(&records[held..], sizes) {
        Some(line) => Err(SourceKind::IdOutside.at(file, line)),
        None => Ok(skipped),
    }
}

/// Returns the line of the first record whose ids lie outside the sizes.
fn line_outside(records: &[Record<'_>], sizes: MatrixSizes) -> Option<u64>
    ensures { (file : ℕ) → first_outside file sizes (rows_of records.now)
        ≡ option_map (λ line. record { file = file; line = line; kind = IdOutside }) result }
{
    for record in records {
        let entry = &record.entry;
        if !sizes.contains(entry.right, entry.left) {
            return Some(record.line);
        }
    }
    None
}
