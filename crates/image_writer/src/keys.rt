//! The sections of keys and groups.
ghost use Rattle.std.specs.Prelude.{◌≢◌, IfOk, IfErr};
ghost use Rattle.image_writer.specs.WriterErrors.{FullOnlyFor, IsWriterFault};
ghost use Rattle.image_writer.specs.Sections.{AreKeyBytes};
ghost use Rattle.mj_model.specs.declared.source_fault.SourceKind.TheVariants.{FeaturesTooLarge};

use crate::cell_bytes::write_cells;
use crate::group_bytes::write_starts;
use crate::groups::group_entries;
use lex_source::SortedLexicon;
use mj_model::SourceKind;
use std::alloc::Global;

/// The double array of the keys, the group index, and the number of groups.
#[derive(Drop)]
pub(crate) struct KeyBytes {
    pub cells: Vec<u8>,
    pub index: Vec<u8>,
    pub groups: u32,
}

/// Returns the keys and groups of a lexicon.
pub(crate) fn write_keys(alloc: Global, lexicon: &SortedLexicon<'_>) -> Result<KeyBytes, SourceKind>
    ensures keys { IfOk result (AreKeyBytes lexicon.now.rows) }
    ensures full { IfErr result (FullOnlyFor lexicon.now.rows) }
    ensures no_features { IfErr result (λ fault. fault ≢ FeaturesTooLarge) }
    ensures kinds { IfErr result IsWriterFault }
{
    let groups = group_entries(alloc, lexicon)?;
    let entries = lexicon.records().len();
    Ok(KeyBytes {
        cells: write_cells(alloc, &groups.array)?,
        index: write_starts(alloc, &groups.starts, entries as u32)?,
        groups: groups.starts.len() as u32,
    })
}
